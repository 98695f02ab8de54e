//! Terms with values in place of their free bound places.
ghost use Rattle.std.specs.Prelude.{◌≡◌, ◌-◌, ◌<◌, ◌⊎◌, ◌++◌, ◌∷◌, [], true, length, map, take, reverse, All, Any, IfOk, IfSome, IfNone, OnOk};
ghost use Rattle.std.specs.HashMap.{get};
ghost use Rattle.ll_bank.specs.Term.{close, close_head, place, apply, app as app_term, applies_heads};
ghost use Rattle.ll_bank.specs.Nodes.{term_tree, term_trees, HasTerm, AllInTerms, ShowsTerm, Extends};
ghost use Rattle.ll_bank.specs.Opened.{AreImages, ArePartsOf, term_parts_at, term_size_at};
ghost use Rattle.ll_bank.specs.Closing.{env_in, HasValues, under, same_spot, IsTermImage, IsGoodTerm};
ghost use Rattle.ll_bank.specs.Stacks.{visit, ready, EndsWith};

use crate::closing::flat::{FEW, close_each};
use crate::closing::images::Images;
use crate::closing::stack::{Task, push_arguments, push_part};
use crate::closing::values::Values;
use crate::{At, Bank, Head, OutOfMemory, TermView};
use std::alloc::Global;

/// The term at a place with values for its free bound places, the outermost first. What holds none of them is shared, and bound places
/// further out count down.
///
/// Nothing but a head may get arguments by it. A term that shares much takes time and memory for its places, not for its tree. After a
/// refusal the bank may have more places.
#[inline(always)]
pub fn close_term(
    alloc: Global,
    bank: &mut Bank,
    at: At,
    values: Values<'_>,
) -> Result<At, OutOfMemory>
    requires inside { HasTerm bank.old at.0 }
    requires values { HasValues bank.old values }
    requires heads { applies_heads (close (env_in bank.old values) (term_tree bank.old at.0)) ≡ true }
    ensures shows { IfOk result (λ made. ShowsTerm bank.new made.0
        (close (env_in bank.old values.entry) (term_tree bank.old at.0))) }
    ensures keeps { Extends bank.old bank.new }
{
    if values.count() == 0 {
        return Ok(at);
    }
    let mut images = Images::new(alloc);
    closed_term(alloc, bank, at, 0, values, &mut images)
}

/// The image of a term at a level. Images that are known are shared.
#[inline(always)]
pub(crate) fn closed_term(
    alloc: Global,
    bank: &mut Bank,
    at: At,
    level: usize,
    values: Values<'_>,
    images: &mut Images,
) -> Result<At, OutOfMemory>
    requires inside { HasTerm bank.old at.0 }
    requires values { HasValues bank.old values }
    requires heads { applies_heads (close (under (env_in bank.old values) level) (term_tree bank.old at.0)) ≡ true }
    requires images { AreImages (IsTermImage bank.old (env_in bank.old values)) (get same_spot images.old.places) }
    ensures shows { IfOk result (λ made. ShowsTerm bank.new made.0
        (close (under (env_in bank.old values.entry) level) (term_tree bank.old at.0))) }
    ensures images { OnOk result (AreImages (IsTermImage bank.new (env_in bank.old values.entry))
        (get same_spot images.new.places)) }
    ensures keeps { Extends bank.old bank.new }
{
    match closed_shallow(alloc, bank, at, level, values)? {
        Some(image) => Ok(image),
        None => closed_deep(alloc, bank, at, level, values, images),
    }
}

/// The image of a term at a level; none where it has many arguments, or one that has arguments itself, and then the bank may have more
/// places.
#[inline(always)]
pub(crate) fn closed_shallow(
    alloc: Global,
    bank: &mut Bank,
    at: At,
    level: usize,
    values: Values<'_>,
) -> Result<Option<At>, OutOfMemory>
    requires inside { HasTerm bank.old at.0 }
    requires values { HasValues bank.old values }
    requires heads { applies_heads (close (under (env_in bank.old values) level) (term_tree bank.old at.0)) ≡ true }
    ensures shows { IfOk result (λ made. IfSome made (λ image. ShowsTerm bank.new image.0
        (close (under (env_in bank.old values.entry) level) (term_tree bank.old at.0)))) }
    ensures none { IfOk result (λ made. IfNone made ((8 < length (term_parts_at bank.old (at.0, level)))
        ⊎ Any (λ k. (term_parts_at bank.old k ≡ []) → ⊥) (term_parts_at bank.old (at.0, level)))) }
    ensures keeps { Extends bank.old bank.new }
{
    match bank.term_at(at) {
        TermView::Var(_) => Ok(Some(at)),
        TermView::Int(_) => Ok(Some(at)),
        TermView::App(head, args) => {
            let count = args.len();
            if count > FEW {
                return Ok(None);
            }
            let mut own = [At(0); FEW];
            own[..count].copy_from_slice(args);
            if close_each(bank, &mut own[..count], level, values)? {
                let image = closed_head(alloc, bank, at, level, values, head, &own[..count])?;
                Ok(Some(image))
            } else {
                Ok(None)
            }
        }
    }
}

/// The image of a term at a level, by a stack of its parts. Images that are known are shared.
fn closed_deep(
    alloc: Global,
    bank: &mut Bank,
    at: At,
    level: usize,
    values: Values<'_>,
    images: &mut Images,
) -> Result<At, OutOfMemory>
    requires inside { HasTerm bank.old at.0 }
    requires values { HasValues bank.old values }
    requires heads { applies_heads (close (under (env_in bank.old values) level) (term_tree bank.old at.0)) ≡ true }
    requires images { AreImages (IsTermImage bank.old (env_in bank.old values)) (get same_spot images.old.places) }
    ensures shows { IfOk result (λ made. ShowsTerm bank.new made.0
        (close (under (env_in bank.old values.entry) level) (term_tree bank.old at.0))) }
    ensures images { OnOk result (AreImages (IsTermImage bank.new (env_in bank.old values.entry))
        (get same_spot images.new.places)) }
    ensures keeps { Extends bank.old bank.new }
{
    let mut made = Vec::new(alloc);
    let mut tasks = Vec::new(alloc);
    push_part(at.0, level, &mut tasks)?;
    while let Some(task) = tasks.pop() {
        if task.ready {
            let image = build_term(alloc, bank, task, values, &mut made)?;
            images.remember(task, image.0)?;
            made.push(image)?;
        } else if let Some(image) = images.find(task) {
            made.push(At(image))?;
        } else if is_leaf(bank, task) {
            let image = build_term(alloc, bank, task, values, &mut made)?;
            made.push(image)?;
        } else {
            push_term(bank, task, &mut tasks)?;
        }
    }
    Ok(made[0])
}

/// Whether a term has no arguments.
fn is_leaf(bank: &Bank, task: Task) -> bool
    requires { HasTerm bank.now task.place }
    ensures { result ≡ true → term_parts_at bank.now (task.place, task.level) ≡ [] }
{
    match bank.term_at(At(task.place)) {
        TermView::Var(_) => true,
        TermView::Int(_) => true,
        TermView::App(_, args) => args.is_empty(),
    }
}

/// Puts a term on the stack, which is ready, and its arguments above it.
fn push_term(bank: &Bank, task: Task, tasks: &mut Vec<Task>) -> Result<(), OutOfMemory>
    requires { HasTerm bank.now task.place }
    ensures pushed { OnOk result (reverse tasks.new.items
        ≡ map visit (term_parts_at bank.now (task.place, task.level)) ++ ready (task.place, task.level)
        ∷ reverse tasks.old.items) }
    ensures parts { OnOk result (ArePartsOf (term_size_at bank.now) (IsGoodTerm bank.now) (task.place, task.level)
        (term_parts_at bank.now (task.place, task.level))) }
{
    tasks.push(Task {
        ready: true,
        ..task
    })?;
    match bank.term_at(At(task.place)) {
        TermView::Var(_) => Ok(()),
        TermView::Int(_) => Ok(()),
        TermView::App(_, args) => push_arguments(args, task.level, tasks),
    }
}

/// The image of a term, over the images of its arguments, which are taken from the stack.
fn build_term(
    alloc: Global,
    bank: &mut Bank,
    task: Task,
    values: Values<'_>,
    made: &mut Vec<At>,
) -> Result<At, OutOfMemory>
    requires inside { HasTerm bank.old task.place }
    requires values { HasValues bank.old values }
    requires heads { applies_heads
        (close (under (env_in bank.old values) task.level) (term_tree bank.old task.place)) ≡ true }
    requires parts { EndsWith (λ k x. IsTermImage bank.old (env_in bank.old values) k x.0)
        (term_parts_at bank.old (task.place, task.level)) made.old.items }
    ensures shows { IfOk result (λ image. ShowsTerm bank.new image.0
        (close (under (env_in bank.old values.entry) task.level) (term_tree bank.old task.place))) }
    ensures made { OnOk result (made.new.items
        ≡ take (length made.old.items - length (term_parts_at bank.old (task.place, task.level))) made.old.items) }
    ensures keeps { Extends bank.old bank.new }
{
    let at = At(task.place);
    match bank.term_at(at) {
        TermView::Var(_) => Ok(at),
        TermView::Int(_) => Ok(at),
        TermView::App(head, args) => {
            let from = made.len() - args.len();
            let image = closed_head(alloc, bank, at, task.level, values, head, &made[from..])?;
            made.truncate(from);
            Ok(image)
        }
    }
}

/// What stands for a head, with these arguments: at the place itself, if it has them.
#[inline(always)]
pub(crate) fn closed_head(
    alloc: Global,
    bank: &mut Bank,
    at: At,
    level: usize,
    values: Values<'_>,
    head: Head,
    args: &[At],
) -> Result<At, OutOfMemory>
    requires inside { HasTerm bank.old at.0 }
    requires values { HasValues bank.old values }
    requires places { AllInTerms bank.old args.now }
    requires heads { applies_heads (apply (close_head (under (env_in bank.old values) level) head)
        (term_trees bank.old args.now)) ≡ true }
    ensures shows { IfOk result (λ image. ShowsTerm bank.new image.0
        (apply (close_head (under (env_in bank.old values.entry) level) head) (term_trees bank.old args.now))) }
    ensures keeps { Extends bank.old bank.new }
{
    match head {
        Head::Bound(bound) => closed_bound(alloc, bank, at, level, values, bound, args),
        Head::Name(_) => share_term(bank, at, head, args),
        Head::Eigen(_) => share_term(bank, at, head, args),
    }
}

/// What stands for a bound place, with these arguments. Places further out count down.
fn closed_bound(
    alloc: Global,
    bank: &mut Bank,
    at: At,
    level: usize,
    values: Values<'_>,
    bound: u32,
    args: &[At],
) -> Result<At, OutOfMemory>
    requires inside { HasTerm bank.old at.0 }
    requires values { HasValues bank.old values }
    requires places { AllInTerms bank.old args.now }
    requires heads { applies_heads (apply (place (under (env_in bank.old values) level) bound 0)
        (term_trees bank.old args.now)) ≡ true }
    ensures shows { IfOk result (λ image. ShowsTerm bank.new image.0
        (apply (place (under (env_in bank.old values.entry) level) bound 0) (term_trees bank.old args.now))) }
    ensures keeps { Extends bank.old bank.new }
{
    let number = bound as usize;
    if number < level {
        return share_term(bank, at, Head::Bound(bound), args);
    }
    match values.value(bank, (number - level) as u32)? {
        Some(value) => put_value(alloc, bank, value, args),
        None => bank.app(Head::Bound((number - values.count()) as u32), args),
    }
}

/// A value with these arguments.
fn put_value(alloc: Global, bank: &mut Bank, value: At, args: &[At]) -> Result<At, OutOfMemory>
    requires value { HasTerm bank.old value.0 }
    requires places { AllInTerms bank.old args.now }
    requires heads { applies_heads (apply (term_tree bank.old value.0) (term_trees bank.old args.now)) ≡ true }
    ensures shows { IfOk result (λ image. ShowsTerm bank.new image.0
        (apply (term_tree bank.old value.0) (term_trees bank.old args.now))) }
    ensures keeps { Extends bank.old bank.new }
{
    if args.is_empty() {
        return Ok(value);
    }
    match bank.term_at(value) {
        TermView::Var(_) => unreachable!(),
        TermView::Int(_) => unreachable!(),
        TermView::App(head, own) => {
            let mut all = Vec::from_slice(alloc, own)?;
            all.extend_from_slice(args)?;
            bank.app(head, &all)
        }
    }
}

/// A place of the head with these arguments: this one, if it has them.
#[inline(always)]
fn share_term(bank: &mut Bank, at: At, head: Head, args: &[At]) -> Result<At, OutOfMemory>
    requires inside { HasTerm bank.old at.0 }
    requires places { AllInTerms bank.old args.now }
    ensures shows { IfOk result (λ image. ShowsTerm bank.new image.0 (app_term head (term_trees bank.old args.now))) }
    ensures keeps { Extends bank.old bank.new }
{
    if bank.term_at(at) == TermView::App(head, args) {
        Ok(at)
    } else {
        bank.app(head, args)
    }
}
