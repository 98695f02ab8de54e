//! Formulas with values in place of their free bound places.
ghost use Rattle.std.specs.Prelude.{◌≡◌, ◌-◌, ◌+◌, ◌≤◌, ◌&&◌, ◌++◌, ◌∷◌, [], ℕ, true, length, map, take, reverse, All, IfOk, IfSome, OnOk};
ghost use Rattle.std.specs.HashMap.{get};
ghost use Rattle.ll_bank.specs.Term.{close, applies_heads};
ghost use Rattle.ll_bank.specs.Form.{Atom, close_form, form_applies_heads};
ghost use Rattle.ll_bank.specs.Nodes.{term_tree, form_tree, term_trees, form_of, HasTerm, HasForm, AllInTerms, HasParts, ShowsTerm, ShowsForm, Extends};
ghost use Rattle.ll_bank.specs.Opened.{Spot, AreImages, ArePartsOf, form_parts_at, form_size_at};
ghost use Rattle.ll_bank.specs.Closing.{env_in, HasValues, under, same_spot, IsTermImage, IsFormImage, IsGoodForm, IsNum};
ghost use Rattle.ll_bank.specs.Stacks.{visit, ready, AreImagesOf, EndsWith};

use crate::closing::images::Images;
use crate::closing::stack::{Task, push_part};
use crate::closing::term::{close_term, closed_shallow, closed_term};
use crate::closing::values::Values;
use crate::{At, Bank, FormAt, FormNode, OutOfMemory};
use std::alloc::Global;

/// A formula so deep at most, its atoms counted, is closed by calls of `closed_flat`, a deeper one with stacks.
const SHALLOW: usize = 6;

/// The formula at a place with values for its free bound places, the outermost first. What holds none of them is shared, and bound
/// places further out count down.
///
/// Nothing but a head may get arguments by it. A formula that shares much takes time and memory for its places, not for its tree.
/// After a refusal the bank may have more places.
#[inline(always)]
pub fn close_form(
    alloc: Global,
    bank: &mut Bank,
    form: FormAt,
    values: Values<'_>,
) -> Result<FormAt, OutOfMemory>
    requires inside { HasForm bank.old form.0 }
    requires values { HasValues bank.old values }
    requires heads { form_applies_heads (close_form (env_in bank.old values) (form_tree bank.old form.0)) ≡ true }
    ensures shows { IfOk result (λ made. ShowsForm bank.new made.0
        (close_form (env_in bank.old values.entry) (form_tree bank.old form.0))) }
    ensures keeps { Extends bank.old bank.new }
{
    if values.count() == 0 {
        return Ok(form);
    }
    match bank.form_at(form) {
        FormNode::Atom(atom) => {
            let atom = close_term(alloc, bank, atom, values)?;
            share_form(bank, form, FormNode::Atom(atom))
        }
        FormNode::Is(_, _) => close_number_goal(alloc, bank, form, values),
        FormNode::Less(_, _) => close_number_goal(alloc, bank, form, values),
        FormNode::Most(_, _) => close_number_goal(alloc, bank, form, values),
        _ => match closed_flat(alloc, bank, form, 0, values, SHALLOW)? {
            Some(image) => Ok(image),
            None => close_deep(alloc, bank, form, values),
        },
    }
}

/// The whole-number goal at a place with values for its free bound places.
fn close_number_goal(
    alloc: Global,
    bank: &mut Bank,
    form: FormAt,
    values: Values<'_>,
) -> Result<FormAt, OutOfMemory>
    requires inside { HasForm bank.old form.0 }
    requires number { IsNum (form_tree bank.old form.0) }
    requires values { HasValues bank.old values }
    requires heads { form_applies_heads (close_form (env_in bank.old values) (form_tree bank.old form.0)) ≡ true }
    ensures shows { IfOk result (λ made. ShowsForm bank.new made.0
        (close_form (env_in bank.old values.entry) (form_tree bank.old form.0))) }
    ensures keeps { Extends bank.old bank.new }
{
    let task = Task {
        place: place_of(form),
        level: 0,
        ready: true,
    };
    let mut terms = Images::new(alloc);
    closed_number_goal(alloc, bank, task, values, &mut terms)
}

/// The image of a formula at a level, by calls of itself. None where it is deeper than `depth`, its atoms counted, where it holds a load
/// or a whole-number goal, or where an atom has many arguments or one that has arguments itself; the bank may then have more places.
#[cycle(flat)]
fn closed_flat(
    alloc: Global,
    bank: &mut Bank,
    form: FormAt,
    level: usize,
    values: Values<'_>,
    depth: usize,
) -> Result<Option<FormAt>, OutOfMemory>
    requires inside { HasForm bank.old form.0 }
    requires values { HasValues bank.old values }
    requires heads { form_applies_heads
        (close_form (under (env_in bank.old values) level) (form_tree bank.old form.0)) ≡ true }
    requires level { level + depth ≤ 18446744073709551615 }
    ensures shows { IfOk result (λ made. IfSome made (λ image. ShowsForm bank.new image.0
        (close_form (under (env_in bank.old values.entry) level) (form_tree bank.old form.0)))) }
    ensures keeps { Extends bank.old bank.new }
{
    if depth == 0 {
        return Ok(None);
    }
    let left = depth - 1;
    match bank.form_at(form) {
        FormNode::Top => Ok(Some(form)),
        FormNode::One => Ok(Some(form)),
        FormNode::Atom(atom) => closed_atom(alloc, bank, form, atom, level, values),
        FormNode::With(f, g) => match closed_pair(alloc, bank, f, g, level, values, left)? {
            Some(parts) => some_shared(bank, form, FormNode::With(parts.0, parts.1)),
            None => Ok(None),
        },
        FormNode::Tensor(f, g) => match closed_pair(alloc, bank, f, g, level, values, left)? {
            Some(parts) => some_shared(bank, form, FormNode::Tensor(parts.0, parts.1)),
            None => Ok(None),
        },
        FormNode::Plus(f, g) => match closed_pair(alloc, bank, f, g, level, values, left)? {
            Some(parts) => some_shared(bank, form, FormNode::Plus(parts.0, parts.1)),
            None => Ok(None),
        },
        FormNode::Lolli(f, g) => match closed_pair(alloc, bank, f, g, level, values, left)? {
            Some(parts) => some_shared(bank, form, FormNode::Lolli(parts.0, parts.1)),
            None => Ok(None),
        },
        FormNode::Imp(f, g) => match closed_pair(alloc, bank, f, g, level, values, left)? {
            Some(parts) => some_shared(bank, form, FormNode::Imp(parts.0, parts.1)),
            None => Ok(None),
        },
        _ => closed_under(alloc, bank, form, level, values, left),
    }
}

/// The image of a formula with one under it, as `closed_flat` makes it; the one under it is `depth` deep at most.
#[cycle(flat)]
fn closed_under(
    alloc: Global,
    bank: &mut Bank,
    form: FormAt,
    level: usize,
    values: Values<'_>,
    depth: usize,
) -> Result<Option<FormAt>, OutOfMemory>
    requires inside { HasForm bank.old form.0 }
    requires values { HasValues bank.old values }
    requires heads { form_applies_heads
        (close_form (under (env_in bank.old values) level) (form_tree bank.old form.0)) ≡ true }
    requires level { level + 1 + depth ≤ 18446744073709551615 }
    ensures shows { IfOk result (λ made. IfSome made (λ image. ShowsForm bank.new image.0
        (close_form (under (env_in bank.old values.entry) level) (form_tree bank.old form.0)))) }
    ensures keeps { Extends bank.old bank.new }
{
    match bank.form_at(form) {
        FormNode::Bang(f) => match closed_flat(alloc, bank, f, level, values, depth)? {
            Some(part) => some_shared(bank, form, FormNode::Bang(part)),
            None => Ok(None),
        },
        FormNode::Forall(f) => match closed_flat(alloc, bank, f, level + 1, values, depth)? {
            Some(part) => some_shared(bank, form, FormNode::Forall(part)),
            None => Ok(None),
        },
        FormNode::Exists(f) => match closed_flat(alloc, bank, f, level + 1, values, depth)? {
            Some(part) => some_shared(bank, form, FormNode::Exists(part)),
            None => Ok(None),
        },
        _ => Ok(None),
    }
}

/// The images of two formulas at a level, as `closed_flat` makes them.
#[cycle(flat)]
fn closed_pair(
    alloc: Global,
    bank: &mut Bank,
    left: FormAt,
    right: FormAt,
    level: usize,
    values: Values<'_>,
    depth: usize,
) -> Result<Option<(FormAt, FormAt)>, OutOfMemory>
    requires left { HasForm bank.old left.0 }
    requires right { HasForm bank.old right.0 }
    requires values { HasValues bank.old values }
    requires heads { (form_applies_heads
        (close_form (under (env_in bank.old values) level) (form_tree bank.old left.0))
        && form_applies_heads (close_form (under (env_in bank.old values) level) (form_tree bank.old right.0)))
        ≡ true }
    requires level { level + depth ≤ 18446744073709551615 }
    ensures left { IfOk result (λ made. IfSome made (λ images. ShowsForm bank.new images.0.0
        (close_form (under (env_in bank.old values.entry) level) (form_tree bank.old left.0)))) }
    ensures right { IfOk result (λ made. IfSome made (λ images. ShowsForm bank.new images.1.0
        (close_form (under (env_in bank.old values.entry) level) (form_tree bank.old right.0)))) }
    ensures keeps { Extends bank.old bank.new }
{
    let Some(first) = closed_flat(alloc, bank, left, level, values, depth)? else {
        return Ok(None);
    };
    match closed_flat(alloc, bank, right, level, values, depth)? {
        Some(second) => Ok(Some((first, second))),
        None => Ok(None),
    }
}

/// The image of an atom, as `closed_shallow` makes that of its term.
fn closed_atom(
    alloc: Global,
    bank: &mut Bank,
    form: FormAt,
    atom: At,
    level: usize,
    values: Values<'_>,
) -> Result<Option<FormAt>, OutOfMemory>
    requires inside { HasForm bank.old form.0 }
    requires atom { HasTerm bank.old atom.0 }
    requires values { HasValues bank.old values }
    requires heads { applies_heads (close (under (env_in bank.old values) level) (term_tree bank.old atom.0))
        ≡ true }
    ensures shows { IfOk result (λ made. IfSome made (λ image. ShowsForm bank.new image.0
        (Atom (close (under (env_in bank.old values.entry) level) (term_tree bank.old atom.0))))) }
    ensures keeps { Extends bank.old bank.new }
{
    match closed_shallow(alloc, bank, atom, level, values)? {
        Some(image) => some_shared(bank, form, FormNode::Atom(image)),
        None => Ok(None),
    }
}

/// A place of the formula that the node builds, as `share_form` finds it.
#[inline(always)]
fn some_shared(
    bank: &mut Bank,
    at: FormAt,
    node: FormNode<'_>,
) -> Result<Option<FormAt>, OutOfMemory>
    requires inside { HasForm bank.old at.0 }
    requires parts { HasParts bank.old node }
    ensures shows { IfOk result (λ made. IfSome made
        (λ image. ShowsForm bank.new image.0 (form_of bank.old node.entry))) }
    ensures keeps { Extends bank.old bank.new }
{
    let image = share_form(bank, at, node)?;
    Ok(Some(image))
}

/// The formula at a place with values for its free bound places, by a stack of its parts.
fn close_deep(
    alloc: Global,
    bank: &mut Bank,
    form: FormAt,
    values: Values<'_>,
) -> Result<FormAt, OutOfMemory>
    requires inside { HasForm bank.old form.0 }
    requires values { HasValues bank.old values }
    requires heads { form_applies_heads (close_form (env_in bank.old values) (form_tree bank.old form.0)) ≡ true }
    ensures shows { IfOk result (λ made. ShowsForm bank.new made.0
        (close_form (env_in bank.old values.entry) (form_tree bank.old form.0))) }
    ensures keeps { Extends bank.old bank.new }
{
    let mut terms = Images::new(alloc);
    let mut forms = Images::new(alloc);
    let mut made = Vec::new(alloc);
    let mut tasks = Vec::new(alloc);
    push_part(place_of(form), 0, &mut tasks)?;
    while let Some(task) = tasks.pop() {
        if task.ready {
            let image = build_form(alloc, bank, task, values, &mut terms, &mut made)?;
            forms.remember(task, image.0)?;
            made.push(image)?;
        } else if let Some(image) = forms.find(task) {
            made.push(FormAt(image))?;
        } else if is_single(bank, task) {
            let image = build_form(alloc, bank, task, values, &mut terms, &mut made)?;
            made.push(image)?;
        } else {
            push_form(bank, task, &mut tasks)?;
        }
    }
    Ok(made[0])
}

/// The place of a formula, which is a number of the machine.
fn place_of(form: FormAt) -> usize
    ensures is { result ≡ form.0 }
    ensures fits { result ≤ 18446744073709551615 }
{
    form.0
}

/// Puts a formula on the stack, which is ready, and the formulas under it above it.
fn push_form(bank: &Bank, task: Task, tasks: &mut Vec<Task>) -> Result<(), OutOfMemory>
    requires inside { HasForm bank.now task.place }
    requires level { task.place + task.level ≤ 18446744073709551615 }
    ensures pushed { OnOk result (reverse tasks.new.items
        ≡ map visit (form_parts_at bank.now (task.place, task.level)) ++ ready (task.place, task.level)
        ∷ reverse tasks.old.items) }
    ensures parts { OnOk result (ArePartsOf (form_size_at bank.now) (IsGoodForm bank.now) (task.place, task.level)
        (form_parts_at bank.now (task.place, task.level))) }
{
    tasks.push(Task {
        ready: true,
        ..task
    })?;
    let level = task.level;
    match bank.form_at(FormAt(task.place)) {
        FormNode::Top => Ok(()),
        FormNode::One => Ok(()),
        FormNode::Atom(_) => Ok(()),
        FormNode::With(f, g) => push_two(f, g, level, tasks),
        FormNode::Tensor(f, g) => push_two(f, g, level, tasks),
        FormNode::Plus(f, g) => push_two(f, g, level, tasks),
        FormNode::Bang(f) => push_part(f.0, level, tasks),
        FormNode::Lolli(f, g) => push_two(f, g, level, tasks),
        FormNode::Imp(f, g) => push_two(f, g, level, tasks),
        FormNode::Forall(f) => push_part(f.0, level + 1, tasks),
        FormNode::Exists(f) => push_part(f.0, level + 1, tasks),
        FormNode::Use(_, _, f) => push_part(f.0, level, tasks),
        FormNode::Is(_, _) => Ok(()),
        FormNode::Less(_, _) => Ok(()),
        FormNode::Most(_, _) => Ok(()),
    }
}

/// Puts two formulas on the stack, the left one on top.
fn push_two(
    left: FormAt,
    right: FormAt,
    level: usize,
    tasks: &mut Vec<Task>,
) -> Result<(), OutOfMemory>
    ensures { OnOk result (reverse tasks.new.items ≡ visit (left.0, level) ∷ visit (right.0, level)
        ∷ reverse tasks.old.items) }
{
    push_part(right.0, level, tasks)?;
    push_part(left.0, level, tasks)
}

/// The number of formulas right under a formula.
fn part_count(bank: &Bank, form: FormAt) -> usize
    requires { HasForm bank.now form.0 }
    ensures { (level : ℕ) → result ≡ length (form_parts_at bank.now (form.0, level)) }
{
    match bank.form_at(form) {
        FormNode::Top => 0,
        FormNode::One => 0,
        FormNode::Atom(_) => 0,
        FormNode::With(_, _) => 2,
        FormNode::Tensor(_, _) => 2,
        FormNode::Plus(_, _) => 2,
        FormNode::Bang(_) => 1,
        FormNode::Lolli(_, _) => 2,
        FormNode::Imp(_, _) => 2,
        FormNode::Forall(_) => 1,
        FormNode::Exists(_) => 1,
        FormNode::Use(_, _, _) => 1,
        FormNode::Is(_, _) => 0,
        FormNode::Less(_, _) => 0,
        FormNode::Most(_, _) => 0,
    }
}

/// Whether a formula has none right under it.
fn is_single(bank: &Bank, task: Task) -> bool
    requires { HasForm bank.now task.place }
    ensures { result ≡ true → form_parts_at bank.now (task.place, task.level) ≡ [] }
{
    part_count(bank, FormAt(task.place)) == 0
}

/// The image of a formula, over the images of the formulas under it, which are taken from the stack.
fn build_form(
    alloc: Global,
    bank: &mut Bank,
    task: Task,
    values: Values<'_>,
    terms: &mut Images,
    made: &mut Vec<FormAt>,
) -> Result<FormAt, OutOfMemory>
    requires inside { HasForm bank.old task.place }
    requires values { HasValues bank.old values }
    requires heads { form_applies_heads (close_form (under (env_in bank.old values) task.level)
        (form_tree bank.old task.place)) ≡ true }
    requires terms { AreImages (IsTermImage bank.old (env_in bank.old values)) (get same_spot terms.old.places) }
    requires parts { EndsWith (λ k x. IsFormImage bank.old (env_in bank.old values) k x.0)
        (form_parts_at bank.old (task.place, task.level)) made.old.items }
    ensures shows { IfOk result (λ image. ShowsForm bank.new image.0
        (close_form (under (env_in bank.old values.entry) task.level) (form_tree bank.old task.place))) }
    ensures terms { OnOk result (AreImages (IsTermImage bank.new (env_in bank.old values.entry))
        (get same_spot terms.new.places)) }
    ensures made { OnOk result (made.new.items
        ≡ take (length made.old.items - length (form_parts_at bank.old (task.place, task.level))) made.old.items) }
    ensures keeps { Extends bank.old bank.new }
{
    let from = made.len() - part_count(bank, FormAt(task.place));
    let image = closed_node(alloc, bank, task, values, terms, &made[from..])?;
    made.truncate(from);
    Ok(image)
}

/// The image of a formula with these images of the formulas under it.
fn closed_node(
    alloc: Global,
    bank: &mut Bank,
    task: Task,
    values: Values<'_>,
    terms: &mut Images,
    parts: &[FormAt],
) -> Result<FormAt, OutOfMemory>
    requires inside { HasForm bank.old task.place }
    requires values { HasValues bank.old values }
    requires heads { form_applies_heads (close_form (under (env_in bank.old values) task.level)
        (form_tree bank.old task.place)) ≡ true }
    requires terms { AreImages (IsTermImage bank.old (env_in bank.old values)) (get same_spot terms.old.places) }
    requires parts { AreImagesOf (λ k x. IsFormImage bank.old (env_in bank.old values) k x.0)
        (form_parts_at bank.old (task.place, task.level)) parts.now }
    ensures shows { IfOk result (λ image. ShowsForm bank.new image.0
        (close_form (under (env_in bank.old values.entry) task.level) (form_tree bank.old task.place))) }
    ensures terms { OnOk result (AreImages (IsTermImage bank.new (env_in bank.old values.entry))
        (get same_spot terms.new.places)) }
    ensures keeps { Extends bank.old bank.new }
{
    let level = task.level;
    let at = FormAt(task.place);
    match bank.form_at(at) {
        FormNode::Top => Ok(at),
        FormNode::One => Ok(at),
        FormNode::Atom(atom) => {
            let atom = closed_term(alloc, bank, atom, level, values, terms)?;
            share_form(bank, at, FormNode::Atom(atom))
        }
        FormNode::With(_, _) => share_form(bank, at, FormNode::With(parts[0], parts[1])),
        FormNode::Tensor(_, _) => share_form(bank, at, FormNode::Tensor(parts[0], parts[1])),
        FormNode::Plus(_, _) => share_form(bank, at, FormNode::Plus(parts[0], parts[1])),
        FormNode::Bang(_) => share_form(bank, at, FormNode::Bang(parts[0])),
        FormNode::Lolli(_, _) => share_form(bank, at, FormNode::Lolli(parts[0], parts[1])),
        FormNode::Imp(_, _) => share_form(bank, at, FormNode::Imp(parts[0], parts[1])),
        FormNode::Forall(_) => share_form(bank, at, FormNode::Forall(parts[0])),
        FormNode::Exists(_) => share_form(bank, at, FormNode::Exists(parts[0])),
        FormNode::Use(module, args, _) => {
            let inner = parts[0];
            let args = Vec::from_slice(alloc, args)?;
            let args = closed_terms(alloc, bank, &args, level, values, terms)?;
            share_form(bank, at, FormNode::Use(module, &args, inner))
        }
        FormNode::Is(_, _) => closed_number_goal(alloc, bank, task, values, terms),
        FormNode::Less(_, _) => closed_number_goal(alloc, bank, task, values, terms),
        FormNode::Most(_, _) => closed_number_goal(alloc, bank, task, values, terms),
    }
}

/// The image of a whole-number goal.
fn closed_number_goal(
    alloc: Global,
    bank: &mut Bank,
    task: Task,
    values: Values<'_>,
    terms: &mut Images,
) -> Result<FormAt, OutOfMemory>
    requires inside { HasForm bank.old task.place }
    requires number { IsNum (form_tree bank.old task.place) }
    requires values { HasValues bank.old values }
    requires heads { form_applies_heads (close_form (under (env_in bank.old values) task.level)
        (form_tree bank.old task.place)) ≡ true }
    requires terms { AreImages (IsTermImage bank.old (env_in bank.old values)) (get same_spot terms.old.places) }
    ensures shows { IfOk result (λ image. ShowsForm bank.new image.0
        (close_form (under (env_in bank.old values.entry) task.level) (form_tree bank.old task.place))) }
    ensures terms { OnOk result (AreImages (IsTermImage bank.new (env_in bank.old values.entry))
        (get same_spot terms.new.places)) }
    ensures keeps { Extends bank.old bank.new }
{
    let level = task.level;
    let at = FormAt(task.place);
    match bank.form_at(at) {
        FormNode::Is(left, right) => {
            let (left, right) = closed_two(alloc, bank, left, right, level, values, terms)?;
            share_form(bank, at, FormNode::Is(left, right))
        }
        FormNode::Less(left, right) => {
            let (left, right) = closed_two(alloc, bank, left, right, level, values, terms)?;
            share_form(bank, at, FormNode::Less(left, right))
        }
        FormNode::Most(left, right) => {
            let (left, right) = closed_two(alloc, bank, left, right, level, values, terms)?;
            share_form(bank, at, FormNode::Most(left, right))
        }
        _ => unreachable!(),
    }
}

/// The images of two terms at a level.
fn closed_two(
    alloc: Global,
    bank: &mut Bank,
    left: At,
    right: At,
    level: usize,
    values: Values<'_>,
    terms: &mut Images,
) -> Result<(At, At), OutOfMemory>
    requires left { HasTerm bank.old left.0 }
    requires right { HasTerm bank.old right.0 }
    requires values { HasValues bank.old values }
    requires left_heads { applies_heads (close (under (env_in bank.old values) level) (term_tree bank.old left.0))
        ≡ true }
    requires right_heads { applies_heads
        (close (under (env_in bank.old values) level) (term_tree bank.old right.0)) ≡ true }
    requires terms { AreImages (IsTermImage bank.old (env_in bank.old values)) (get same_spot terms.old.places) }
    ensures left { IfOk result (λ made. ShowsTerm bank.new made.0.0
        (close (under (env_in bank.old values.entry) level) (term_tree bank.old left.0))) }
    ensures right { IfOk result (λ made. ShowsTerm bank.new made.1.0
        (close (under (env_in bank.old values.entry) level) (term_tree bank.old right.0))) }
    ensures terms { OnOk result (AreImages (IsTermImage bank.new (env_in bank.old values.entry))
        (get same_spot terms.new.places)) }
    ensures keeps { Extends bank.old bank.new }
{
    let first = closed_term(alloc, bank, left, level, values, terms)?;
    let second = closed_term(alloc, bank, right, level, values, terms)?;
    Ok((first, second))
}

/// The images of terms at a level.
fn closed_terms(
    alloc: Global,
    bank: &mut Bank,
    args: &[At],
    level: usize,
    values: Values<'_>,
    terms: &mut Images,
) -> Result<Vec<At>, OutOfMemory>
    requires inside { AllInTerms bank.old args.now }
    requires values { HasValues bank.old values }
    requires heads { All (λ a. applies_heads
        (close (under (env_in bank.old values) level) (term_tree bank.old a.0)) ≡ true) args.now }
    requires terms { AreImages (IsTermImage bank.old (env_in bank.old values)) (get same_spot terms.old.places) }
    ensures places { IfOk result (λ made. AllInTerms bank.new made.items) }
    ensures shows { IfOk result (λ made. term_trees bank.new made.items
        ≡ map (close (under (env_in bank.old values.entry) level)) (term_trees bank.old args.now)) }
    ensures terms { OnOk result (AreImages (IsTermImage bank.new (env_in bank.old values.entry))
        (get same_spot terms.new.places)) }
    ensures keeps { Extends bank.old bank.new }
{
    let mut made = Vec::new(alloc);
    for arg in args {
        let image = closed_term(alloc, bank, *arg, level, values, terms)?;
        made.push(image)?;
    }
    Ok(made)
}

/// A place of the formula that the node builds: this one, if it has that node.
#[inline(always)]
fn share_form(bank: &mut Bank, at: FormAt, node: FormNode<'_>) -> Result<FormAt, OutOfMemory>
    requires inside { HasForm bank.old at.0 }
    requires parts { HasParts bank.old node }
    ensures shows { IfOk result (λ image. ShowsForm bank.new image.0 (form_of bank.old node.entry)) }
    ensures keeps { Extends bank.old bank.new }
{
    if bank.form_at(at) == node {
        Ok(at)
    } else {
        bank.form(node)
    }
}
