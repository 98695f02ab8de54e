//! Leaves of clauses, opened with given terms.
ghost use Rattle.std.specs.Prelude.{◌≡◌, [], true, length, IfOk};
ghost use Rattle.std.specs.List.{list_all};
ghost use Rattle.ll_bank.specs.Term.{is_closed};
ghost use Rattle.ll_bank.specs.Nodes.{form_tree, term_trees, HasForm, AllInTerms, Extends};
ghost use Rattle.ll_laws.specs.Leaf.{ways, leaf as leaf_of};
ghost use Rattle.ll_laws.specs.Valid.{ClauseSide, has_heads};
ghost use Rattle.ll_sequent.specs.Opened.{IsOpened, IsPast, IsSide};

use ll_bank::{At, Bank, FormAt, FormNode, OutOfMemory, Values, close_form, close_term};
use std::alloc::Global;

/// The goal of a premise, which `-o` or `=>` brought.
#[derive(Clone, Copy)]
pub(crate) enum Needed {
    Bounded(FormAt),
    Unbounded(FormAt),
}

/// A leaf that is open: its premises, the one nearest the head first, and its head.
#[derive(Drop)]
pub(crate) struct Opened {
    pub premises: Vec<Needed>,
    pub head: At,
}

/// One side of a clause, and the number of a leaf there.
#[derive(Clone, Copy)]
struct Side {
    form: FormAt,
    leaf: u32,
}

/// A leaf of a clause, with a value for each quantifier on the way to it, the outermost first. None where there is no such leaf, or its
/// way has another number of quantifiers.
pub(crate) fn open_leaf(
    alloc: Global,
    bank: &mut Bank,
    clause: FormAt,
    leaf: u32,
    values: &[At],
) -> Result<Option<Opened>, OutOfMemory>
    requires inside { HasForm bank.old clause.0 }
    requires heads { has_heads true ClauseSide [] (form_tree bank.old clause.0) ≡ true }
    requires values { AllInTerms bank.old values.now }
    requires closed { list_all is_closed (term_trees bank.old values.now) ≡ true }
    ensures opened { IfOk result (IsOpened bank.new
        (leaf_of (form_tree bank.old clause.0) leaf (term_trees bank.old values.now))) }
    ensures keeps { Extends bank.old bank.new }
{
    let mut form = clause;
    let mut leaf = leaf;
    let mut passed = 0;
    let mut premises = Vec::new(alloc);
    'way: loop {
        match bank.form_at(form) {
            FormNode::Atom(head) => {
                if leaf != 0 {
                    return Ok(None);
                }
                if passed != values.len() {
                    return Ok(None);
                }
                let head = close_term(alloc, bank, head, Values::Places(values))?;
                premises.reverse();
                return Ok(Some(Opened { premises, head }));
            }
            FormNode::With(left, right) => {
                let side = side_of(alloc, bank, left, right, leaf)?;
                form = side.form;
                leaf = side.leaf;
            }
            FormNode::Lolli(goal, next) => {
                let goal = close_form(alloc, bank, goal, Values::Places(&values[..passed]))?;
                premises.push(Needed::Bounded(goal))?;
                form = next;
            }
            FormNode::Imp(goal, next) => {
                let goal = close_form(alloc, bank, goal, Values::Places(&values[..passed]))?;
                premises.push(Needed::Unbounded(goal))?;
                form = next;
            }
            FormNode::Forall(body) => {
                if passed == values.len() {
                    return Ok(None);
                }
                form = body;
                passed += 1;
            }
            _ => return Ok(None),
        }
    }
}

/// The side of `&` on which a leaf is, and its number there.
fn side_of(
    alloc: Global,
    bank: &Bank,
    left: FormAt,
    right: FormAt,
    leaf: u32,
) -> Result<Side, OutOfMemory>
    requires { HasForm bank.now left.0 }
    ensures { IfOk result (IsSide (length (ways (form_tree bank.now left.0))) left right leaf) }
{
    match leaves_left(alloc, bank, left, leaf)? {
        None => Ok(Side { form: left, leaf }),
        Some(leaf) => Ok(Side { form: right, leaf }),
    }
}

/// None where a clause has a leaf with this number, and else the number less that of its leaves.
pub(crate) fn leaves_left(
    alloc: Global,
    bank: &Bank,
    clause: FormAt,
    leaf: u32,
) -> Result<Option<u32>, OutOfMemory>
    requires { HasForm bank.now clause.0 }
    ensures { IfOk result (IsPast (length (ways (form_tree bank.now clause.0))) leaf) }
{
    let mut waiting = Vec::new(alloc);
    waiting.push(clause)?;
    let mut left = leaf;
    'walk: while let Some(form) = waiting.pop() {
        match bank.form_at(form) {
            FormNode::Atom(_) => {
                if left == 0 {
                    return Ok(None);
                }
                left -= 1;
            }
            FormNode::With(first, second) => {
                waiting.push(second)?;
                waiting.push(first)?;
            }
            FormNode::Lolli(_, rest) => waiting.push(rest)?,
            FormNode::Imp(_, rest) => waiting.push(rest)?,
            FormNode::Forall(rest) => waiting.push(rest)?,
            _ => {}
        }
    }
    Ok(Some(left))
}
