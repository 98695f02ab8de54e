//! Names, heads and numbers.
ghost use Rattle.std.specs.Prelude.{◌≡◌, ◌++◌, ◌∷◌, OnOk, OnErr, IsTrue, codes, decimal};
ghost use Rattle.std.specs.Fmt.{signed_decimal};
ghost use Rattle.ll_laws.specs.Output.{name_text, head_text, is_cons_head};
ghost use Rattle.ll_printer.specs.Pieces.{BeginsText};

use itoa::Buffer;
use ll_bank::{Head, Names, OutOfMemory};

/// The text of a name, or none where its number has none.
pub(crate) fn name_of(names: &Names, number: u32) -> &str
    ensures { result.now ≡ name_text names.now number }
{
    if (number as usize) < names.len() {
        names.text(number)
    } else {
        ""
    }
}

/// Whether the head is the sign `::`.
pub(crate) fn is_cons_sign(names: &Names, head: Head) -> bool
    ensures { result ≡ is_cons_head names.now head }
{
    match head {
        Head::Name(number) => name_of(names, number) == "::",
        Head::Eigen(_) => false,
        Head::Bound(_) => false,
    }
}

/// Appends the text of a head. After a refusal some first bytes of it may have been appended.
pub(crate) fn write_head(names: &Names, head: Head, out: &mut Vec<u8>) -> Result<(), OutOfMemory>
    ensures text { OnOk result (out.new.items ≡ out.old.items ++ head_text names.now head) }
    ensures begun { BeginsText (head_text names.now head) out.old.items out.new.items }
{
    match head {
        Head::Name(number) => out.extend_from_slice(name_of(names, number).as_bytes()),
        Head::Eigen(number) => write_signed_number(b'#', u64::from(number), out),
        Head::Bound(_) => Ok(()),
    }
}

/// Appends a sign and a number. After a refusal the sign may have been appended.
pub(crate) fn write_signed_number(
    sign: u8,
    number: u64,
    out: &mut Vec<u8>,
) -> Result<(), OutOfMemory>
    ensures text { OnOk result (out.new.items ≡ out.old.items ++ (sign ∷ decimal number)) }
    ensures begun { BeginsText (sign ∷ decimal number) out.old.items out.new.items }
{
    out.push(sign)?;
    write_number(number, out)
}

/// Appends a number. After a refusal the bytes are as before.
pub(crate) fn write_number(number: u64, out: &mut Vec<u8>) -> Result<(), OutOfMemory>
    ensures text { OnOk result (out.new.items ≡ out.old.items ++ decimal number) }
    ensures refused { OnErr result (out.new.items ≡ out.old.items) }
{
    let mut buffer = Buffer::new();
    out.extend_from_slice(buffer.format(number).as_bytes())
}

/// Appends a whole number. After a refusal the bytes are as before.
pub(crate) fn write_integer(value: i64, out: &mut Vec<u8>) -> Result<(), OutOfMemory>
    ensures text { OnOk result (out.new.items ≡ out.old.items ++ signed_decimal value) }
    ensures refused { OnErr result (out.new.items ≡ out.old.items) }
{
    let mut buffer = Buffer::new();
    out.extend_from_slice(buffer.format(value).as_bytes())
}
