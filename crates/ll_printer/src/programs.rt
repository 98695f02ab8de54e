//! The lines of a program.
ghost use Rattle.std.specs.Prelude.{◌≡◌, ◌<◌, ◌++◌, OnOk, OnErr, length, map, codes};
ghost use Rattle.ll_parser.specs.Nodes.{identifier, shown_clause, shown_module};
ghost use Rattle.ll_parser.specs.Text.{programs};
ghost use Rattle.ll_parser.specs.Reads.{IsWhole};
ghost use Rattle.ll_parser.specs.Drafts.{ClausesFit, ModuleFits};
ghost use Rattle.ll_parser.specs.Printed.{names_text, clause_text, clauses_text, locals_text, module_text, program_text};
ghost use Rattle.ll_printer.specs.Pieces.{BeginsText};
ghost use Rattle.ll_printer.specs.ReadAgain.{IsReadAgain};

use crate::formulas::{Source, write_formula, write_identifier};
use ll_bank::{Names, OutOfMemory};
use ll_parser::{Named, RawClause, RawModule, RawProgram, printed_is_read};
use std::alloc::Global;

/// Appends the text of a program: a line for each clause, and for each module the line that begins it, one line `LOCAL` with all its
/// local constants if it has any, and its clauses. Brackets stand exactly where the levels of the operators or a quantifier ask for
/// them. What was appended of a whole program, as `ll_parser::program` gives, is read again as this program, places aside.
///
/// After a refusal some first bytes of the text may have been appended. It needs no deep stack, and time in proportion to the text.
pub fn program(alloc: Global, program: &RawProgram, out: &mut Vec<u8>) -> Result<(), OutOfMemory>
    ensures text { OnOk result (out.new.items ≡ out.old.items ++ program_text program.now) }
    ensures again { OnOk result (IsWhole programs program.now → IsReadAgain program.now out.old.items out.new.items) }
    ensures begun { OnErr result (BeginsText (program_text program.now) out.old.items out.new.items) }
{
    write_program(alloc, program, out)?;
    printed_is_read();
    Ok(())
}

/// Appends the clauses and the modules of a program. After a refusal some first bytes of them may have been appended.
fn write_program(alloc: Global, program: &RawProgram, out: &mut Vec<u8>) -> Result<(), OutOfMemory>
    ensures text { OnOk result (out.new.items ≡ out.old.items ++ program_text program.now) }
    ensures begun { OnErr result (BeginsText (program_text program.now) out.old.items out.new.items) }
{
    let source = Source {
        names: &program.names,
        forms: &program.forms,
    };
    write_clauses(alloc, &source, program.clauses.as_slice(), out)?;
    for i in 0..program.modules.len() {
        write_module(alloc, &source, &program.modules[i], out)?;
    }
    Ok(())
}

/// Appends a module. After a refusal some first bytes of it may have been appended.
fn write_module(
    alloc: Global,
    source: &Source<'_>,
    module: &RawModule,
    out: &mut Vec<u8>,
) -> Result<(), OutOfMemory>
    requires { ModuleFits source.now.forms.now «module».now }
    ensures text { OnOk result (out.new.items
        ≡ out.old.items ++ module_text (shown_module source.now.names.now source.now.forms.now «module».now)) }
    ensures begun { OnErr result (BeginsText (module_text (shown_module source.now.names.now source.now.forms.now «module».now)) out.old.items out.new.items) }
{
    out.extend_from_slice(b"MODULE")?;
    write_name(source.names, module.name, out)?;
    write_names(source.names, module.params.as_slice(), out)?;
    write_locals(source.names, module.locals.as_slice(), out)?;
    write_clauses(alloc, source, module.clauses.as_slice(), out)
}

/// Appends the line `LOCAL` of these constants, if there are any. After a refusal some first bytes of it may have been appended.
fn write_locals(names: &Names, locals: &[Named], out: &mut Vec<u8>) -> Result<(), OutOfMemory>
    ensures text { OnOk result (out.new.items ≡ out.old.items ++ locals_text (map (identifier names.now) locals.now)) }
    ensures begun { OnErr result (BeginsText
        (locals_text (map (identifier names.now) locals.now)) out.old.items out.new.items) }
{
    if locals.is_empty() {
        return Ok(());
    }
    out.extend_from_slice(b"LOCAL")?;
    write_names(names, locals, out)
}

/// Appends names, a space before each, and the end of the line. After a refusal some first bytes of it may have been appended.
fn write_names(names: &Names, list: &[Named], out: &mut Vec<u8>) -> Result<(), OutOfMemory>
    ensures text { OnOk result (out.new.items ≡ out.old.items ++ names_text (map (identifier names.now) list.now)) }
    ensures begun { OnErr result (BeginsText
        (names_text (map (identifier names.now) list.now)) out.old.items out.new.items) }
{
    for i in 0..list.len() {
        write_name(names, list[i], out)?;
    }
    out.extend_from_slice(b".\n")
}

/// Appends a space and a name. After a refusal the space may have been appended.
fn write_name(names: &Names, name: Named, out: &mut Vec<u8>) -> Result<(), OutOfMemory>
    ensures text { OnOk result (out.new.items ≡ out.old.items ++ (codes " " ++ (identifier names.now name).text)) }
    ensures begun { OnErr result (BeginsText
        (codes " " ++ (identifier names.now name).text) out.old.items out.new.items) }
{
    out.push(b' ')?;
    write_identifier(names, name, out)
}

/// Appends clauses. After a refusal some first bytes of them may have been appended.
fn write_clauses(
    alloc: Global,
    source: &Source<'_>,
    list: &[RawClause],
    out: &mut Vec<u8>,
) -> Result<(), OutOfMemory>
    requires { ClausesFit source.now.forms.now list.now }
    ensures text { OnOk result (out.new.items
        ≡ out.old.items ++ clauses_text (map (shown_clause source.now.names.now source.now.forms.now) list.now)) }
    ensures begun { OnErr result (BeginsText (clauses_text (map (shown_clause source.now.names.now source.now.forms.now) list.now)) out.old.items
        out.new.items) }
{
    for i in 0..list.len() {
        write_clause(alloc, source, list[i], out)?;
    }
    Ok(())
}

/// Appends the line of a clause. After a refusal some first bytes of it may have been appended.
fn write_clause(
    alloc: Global,
    source: &Source<'_>,
    clause: RawClause,
    out: &mut Vec<u8>,
) -> Result<(), OutOfMemory>
    requires { clause.form.0 < length source.now.forms.now }
    ensures text { OnOk result (out.new.items
        ≡ out.old.items ++ clause_text (shown_clause source.now.names.now source.now.forms.now clause)) }
    ensures begun { OnErr result (BeginsText
        (clause_text (shown_clause source.now.names.now source.now.forms.now clause)) out.old.items out.new.items) }
{
    if clause.linear {
        out.extend_from_slice(b"LINEAR ")?;
    }
    write_formula(alloc, source, clause.form, out)?;
    out.extend_from_slice(b".\n")
}
