//! The keys under which clauses are loaded.
ghost use Rattle.std.specs.Prelude.{◌≡◌};
ghost use Rattle.ll_bank.specs.Nodes.{form_tree, HasForm, term_tree, HasTerm};
ghost use Rattle.ll_bank.specs.Term.{head_of};
ghost use Rattle.ll_freeze.specs.Keyed.{head_key, key_of_head, clause_key};

use ll_bank::{At, Bank, FormAt, FormNode, Head, TermView};

/// The key of a head. A name has its own, and all else has 0, under which clauses are found by all keys.
pub fn head_key(head: Head) -> u32
    ensures { result ≡ head_key head }
{
    match head {
        Head::Name(name) => name.wrapping_add(1),
        Head::Eigen(_) => 0,
        Head::Bound(_) => 0,
    }
}

/// The key of a term, by its head.
fn term_key(bank: &Bank, at: At) -> u32
    requires { HasTerm bank.now at.0 }
    ensures { result ≡ key_of_head (head_of (term_tree bank.now at.0)) }
{
    match bank.term_at(at) {
        TermView::App(head, _) => head_key(head),
        TermView::Var(_) => 0,
        TermView::Int(_) => 0,
    }
}

/// The key of a clause: that of its head where it has one leaf, behind premises and quantifiers alone.
pub fn key_of(bank: &Bank, clause: FormAt) -> u32
    requires { HasForm bank.now clause.0 }
    ensures { result ≡ clause_key (form_tree bank.now clause.0) }
{
    let mut form = clause;
    'parts: loop {
        match bank.form_at(form) {
            FormNode::Atom(head) => return term_key(bank, head),
            FormNode::Lolli(_, rest) => form = rest,
            FormNode::Imp(_, rest) => form = rest,
            FormNode::Forall(rest) => form = rest,
            _ => return 0,
        }
    }
}
