//! The body of a quantifier with a term in place of its bound place.
ghost use Rattle.std.specs.Prelude.{◌≡◌, ◌<◌, ◌≤◌, ◌+◌, ◌++◌, ◌∷◌, List, [], ℕ, true, length, map, All, IfOk, OnOk, IsSome, Some};
ghost use Rattle.std.specs.BTreeMap.{get};
ghost use Rattle.ll_bank.specs.Term.{Term, close, close_head, place, app as app_term, apply, applies_heads};
ghost use Rattle.ll_bank.specs.Form.{close_form, instantiate, form_applies_heads};
ghost use Rattle.ll_bank.specs.Nodes.{term_tree, form_tree, term_trees, form_of, HasTerm, HasForm, AllInTerms, HasParts, ShowsTerm, ShowsForm, Extends};
ghost use Rattle.ll_bank.specs.Nodes.{Nodes, UseNode, node_of, HasPartsBelow};
ghost use Rattle.ll_bank.specs.Opened.{Spot, AreImages, ArePartsOf, form_parts, term_parts_at, form_parts_at, term_size_at, form_size_at};
ghost use Rattle.ll_bank.specs.Instantiated.{by_spot, opened, visit, IsIn, IsKnown};
ghost use Rattle.ll_bank.specs.Instantiated.{IsTermImage, IsFormImage, ShowsImage, ShowsFormImage, IsTermGood, IsFormGood};

use crate::{At, Bank, FormAt, FormNode, Head, OutOfMemory, TermView};
use std::alloc::Global;
use std::collections::BTreeMap;

/// A part of the body at a place, with so many quantifiers passed on the way to it. It is ready once its own parts lie on
/// the stack above it.
#[derive(Clone, Copy)]
struct Task {
    place: usize,
    level: usize,
    ready: bool,
}

/// The images of terms, by their places and levels.
type TermImages = BTreeMap<(usize, usize), At>;

/// The images of formulas, by their places and levels.
type FormImages = BTreeMap<(usize, usize), FormAt>;

impl Bank {
    /// The body of a quantifier with the value in place of its bound place. What is shared in the body stays shared.
    ///
    /// Nothing but a head may get arguments by it. After a refusal the bank may have more places.
    pub fn instantiate(&mut self, form: FormAt, value: At) -> Result<FormAt, OutOfMemory>
        requires body { HasForm self.old form.0 }
        requires value { HasTerm self.old value.0 }
        requires heads { form_applies_heads (instantiate (form_tree self.old form.0) (term_tree self.old value.0)) ≡ true }
        ensures shows { IfOk result (λ at. ShowsForm self.new at.0
            (instantiate (form_tree self.old form.0) (term_tree self.old value.0))) }
        ensures keeps { Extends self.old self.new }
    {
        let mut terms = BTreeMap::new(self.alloc());
        let mut forms = BTreeMap::new(self.alloc());
        let mut tasks = Vec::new(self.alloc());
        tasks.push(root_task(form.0))?;
        while let Some(task) = tasks.pop() {
            if task.ready {
                let image = opened_form(self, task, value, &mut terms, &forms)?;
                forms.insert((task.place, task.level), image)?;
            } else if !forms.contains_key(&(task.place, task.level)) {
                push_form(self, task, &mut tasks)?;
            }
        }
        Ok(form_image(&forms, form, 0))
    }
}

/// The task of a whole body.
fn root_task(place: usize) -> Task
    ensures is { result ≡ visit (place, 0) }
    ensures fits { place ≤ 18446744073709551615 }
{
    Task {
        place,
        level: 0,
        ready: false,
    }
}

/// Puts the formulas under a formula on the stack, above the formula itself, which is then ready.
fn push_form(bank: &Bank, task: Task, tasks: &mut Vec<Task>) -> Result<(), OutOfMemory>
    requires inside { HasForm bank.now task.place }
    requires level { task.place + task.level ≤ 18446744073709551615 }
    ensures pushed { OnOk result (tasks.new.items ≡ tasks.old.items ++ record {
      place = task.place;
      level = task.level;
      ready = true;
    } ∷ map visit (form_parts_at bank.now (task.place, task.level))) }
    ensures parts { OnOk result (ArePartsOf (form_size_at bank.now) (IsFormGood bank.now) (task.place, task.level)
        (form_parts_at bank.now (task.place, task.level))) }
{
    tasks.push(Task {
        ready: true,
        ..task
    })?;
    let level = task.level;
    match bank.form_at(FormAt(task.place)) {
        FormNode::Top => Ok(()),
        FormNode::One => Ok(()),
        FormNode::Atom(_) => Ok(()),
        FormNode::With(f, g) => push_two(f, g, level, tasks),
        FormNode::Tensor(f, g) => push_two(f, g, level, tasks),
        FormNode::Plus(f, g) => push_two(f, g, level, tasks),
        FormNode::Bang(f) => push_one(f, level, tasks),
        FormNode::Lolli(f, g) => push_two(f, g, level, tasks),
        FormNode::Imp(f, g) => push_two(f, g, level, tasks),
        FormNode::Forall(f) => push_one(f, level + 1, tasks),
        FormNode::Exists(f) => push_one(f, level + 1, tasks),
        FormNode::Use(_, _, f) => push_one(f, level, tasks),
        FormNode::Is(_, _) => Ok(()),
        FormNode::Less(_, _) => Ok(()),
        FormNode::Most(_, _) => Ok(()),
    }
}

/// Puts a formula on the stack.
fn push_one(form: FormAt, level: usize, tasks: &mut Vec<Task>) -> Result<(), OutOfMemory>
    ensures { OnOk result (tasks.new.items ≡ tasks.old.items ++ visit (form.0, level) ∷ []) }
{
    tasks.push(Task {
        place: form.0,
        level,
        ready: false,
    })?;
    Ok(())
}

/// Puts two formulas on the stack.
fn push_two(
    left: FormAt,
    right: FormAt,
    level: usize,
    tasks: &mut Vec<Task>,
) -> Result<(), OutOfMemory>
    ensures { OnOk result (tasks.new.items ≡ tasks.old.items ++ visit (left.0, level) ∷ visit (right.0, level) ∷ []) }
{
    push_one(left, level, tasks)?;
    push_one(right, level, tasks)
}

/// The image of a formula, over the images of the formulas under it.
fn opened_form(
    bank: &mut Bank,
    task: Task,
    value: At,
    terms: &mut TermImages,
    forms: &FormImages,
) -> Result<FormAt, OutOfMemory>
    requires inside { HasForm bank.old task.place }
    requires value { HasTerm bank.old value.0 }
    requires heads { form_applies_heads (close_form (opened (term_tree bank.old value.0) task.level)
        (form_tree bank.old task.place)) ≡ true }
    requires level { task.place + task.level ≤ 18446744073709551615 }
    requires terms { AreImages (IsTermImage bank.old (term_tree bank.old value.0)) (get by_spot terms.old) }
    requires forms { AreImages (IsFormImage bank.old (term_tree bank.old value.0)) (get by_spot forms.now) }
    requires parts { (k : Spot) → IsIn k (form_parts_at bank.old (task.place, task.level))
        → IsKnown (get by_spot forms.now) k }
    ensures shows { IfOk result (ShowsFormImage bank.old bank.new (term_tree bank.old value.0)
        (task.place, task.level)) }
    ensures terms { OnOk result (AreImages (IsTermImage bank.new (term_tree bank.old value.0))
        (get by_spot terms.new)) }
    ensures keeps { Extends bank.old bank.new }
{
    let level = task.level;
    let at = FormAt(task.place);
    match bank.form_at(at) {
        FormNode::Atom(atom) => {
            let atom = open_term(bank, atom, level, value, terms)?;
            share_form(bank, at, FormNode::Atom(atom))
        }
        FormNode::Use(module, args, f) => {
            let f = form_image(forms, f, level);
            let args = Vec::from_slice(bank.alloc(), args)?;
            let args = open_terms(bank, &args, level, value, terms)?;
            share_form(bank, at, FormNode::Use(module, &args, f))
        }
        FormNode::Is(left, right) => {
            let (left, right) = open_two(bank, left, right, level, value, terms)?;
            share_form(bank, at, FormNode::Is(left, right))
        }
        FormNode::Less(left, right) => {
            let (left, right) = open_two(bank, left, right, level, value, terms)?;
            share_form(bank, at, FormNode::Less(left, right))
        }
        FormNode::Most(left, right) => {
            let (left, right) = open_two(bank, left, right, level, value, terms)?;
            share_form(bank, at, FormNode::Most(left, right))
        }
        node => {
            let image = over_images(node, task, forms);
            share_form(bank, at, image)
        }
    }
}

/// The node over the images of the formulas under it. It is one without terms.
fn over_images(node: FormNode<'_>, task: Task, forms: &FormImages) -> FormNode<'static>
    requires plain { HasPartsBelow 0 task.place node }
    requires no_load { (m : ℕ) (args : List ℕ) (f : ℕ) → node_of node ≡ UseNode m args f → ⊥ }
    requires level { task.place + task.level ≤ 18446744073709551615 }
    requires parts { (k : Spot) → IsIn k (form_parts (node_of node) task.level) → IsKnown (get by_spot forms.now) k }
    ensures { (bank : Nodes) (t : Term) → AreImages (IsFormImage bank t) (get by_spot forms.now)
        → HasParts bank result × (form_of bank result ≡ close_form (opened t task.level) (form_of bank node.entry)) }
{
    let level = task.level;
    match node {
        FormNode::Top => FormNode::Top,
        FormNode::One => FormNode::One,
        FormNode::With(f, g) => {
            FormNode::With(form_image(forms, f, level), form_image(forms, g, level))
        }
        FormNode::Tensor(f, g) => {
            FormNode::Tensor(form_image(forms, f, level), form_image(forms, g, level))
        }
        FormNode::Plus(f, g) => {
            FormNode::Plus(form_image(forms, f, level), form_image(forms, g, level))
        }
        FormNode::Bang(f) => FormNode::Bang(form_image(forms, f, level)),
        FormNode::Lolli(f, g) => {
            FormNode::Lolli(form_image(forms, f, level), form_image(forms, g, level))
        }
        FormNode::Imp(f, g) => {
            FormNode::Imp(form_image(forms, f, level), form_image(forms, g, level))
        }
        FormNode::Forall(f) => FormNode::Forall(form_image(forms, f, level + 1)),
        FormNode::Exists(f) => FormNode::Exists(form_image(forms, f, level + 1)),
        _ => unreachable!(),
    }
}

/// The image of a formula.
fn form_image(forms: &FormImages, form: FormAt, level: usize) -> FormAt
    requires { IsSome (get by_spot forms.now (form.0, level)) }
    ensures { get by_spot forms.now (form.0, level) ≡ Some result }
{
    *forms.get(&(form.0, level)).unwrap()
}

/// A place of the formula that the node builds: this one, if it has that node.
fn share_form(bank: &mut Bank, at: FormAt, node: FormNode<'_>) -> Result<FormAt, OutOfMemory>
    requires inside { HasForm bank.old at.0 }
    requires parts { HasParts bank.old node }
    ensures shows { IfOk result (λ image. ShowsForm bank.new image.0 (form_of bank.old node.entry)) }
    ensures keeps { Extends bank.old bank.new }
{
    if bank.form_at(at) == node {
        Ok(at)
    } else {
        bank.form(node)
    }
}

/// The images of two terms at a level.
fn open_two(
    bank: &mut Bank,
    left: At,
    right: At,
    level: usize,
    value: At,
    images: &mut TermImages,
) -> Result<(At, At), OutOfMemory>
    requires left { HasTerm bank.old left.0 }
    requires right { HasTerm bank.old right.0 }
    requires value { HasTerm bank.old value.0 }
    requires left_heads { applies_heads
        (close (opened (term_tree bank.old value.0) level) (term_tree bank.old left.0)) ≡ true }
    requires right_heads { applies_heads
        (close (opened (term_tree bank.old value.0) level) (term_tree bank.old right.0)) ≡ true }
    requires images { AreImages (IsTermImage bank.old (term_tree bank.old value.0)) (get by_spot images.old) }
    ensures left { IfOk result (λ made. ShowsImage bank.old bank.new (term_tree bank.old value.0)
        (left.0, level) made.0) }
    ensures right { IfOk result (λ made. ShowsImage bank.old bank.new (term_tree bank.old value.0)
        (right.0, level) made.1) }
    ensures images { OnOk result (AreImages (IsTermImage bank.new (term_tree bank.old value.0))
        (get by_spot images.new)) }
    ensures keeps { Extends bank.old bank.new }
{
    let first = open_term(bank, left, level, value, images)?;
    let second = open_term(bank, right, level, value, images)?;
    Ok((first, second))
}

/// The images of terms at a level.
fn open_terms(
    bank: &mut Bank,
    terms: &[At],
    level: usize,
    value: At,
    images: &mut TermImages,
) -> Result<Vec<At>, OutOfMemory>
    requires inside { AllInTerms bank.old terms.now }
    requires value { HasTerm bank.old value.0 }
    requires heads { All (λ a. applies_heads
        (close (opened (term_tree bank.old value.0) level) (term_tree bank.old a.0)) ≡ true) terms.now }
    requires images { AreImages (IsTermImage bank.old (term_tree bank.old value.0)) (get by_spot images.old) }
    ensures places { IfOk result (λ made. AllInTerms bank.new made.items) }
    ensures shows { IfOk result (λ made. term_trees bank.new made.items
        ≡ map (close (opened (term_tree bank.old value.0) level)) (term_trees bank.old terms.now)) }
    ensures images { OnOk result (AreImages (IsTermImage bank.new (term_tree bank.old value.0))
        (get by_spot images.new)) }
    ensures keeps { Extends bank.old bank.new }
{
    let mut made = Vec::new(bank.alloc());
    for term in terms {
        let image = open_term(bank, *term, level, value, images)?;
        made.push(image)?;
    }
    Ok(made)
}

/// The image of a term at a level. Images that are known are shared.
fn open_term(
    bank: &mut Bank,
    term: At,
    level: usize,
    value: At,
    images: &mut TermImages,
) -> Result<At, OutOfMemory>
    requires inside { HasTerm bank.old term.0 }
    requires value { HasTerm bank.old value.0 }
    requires heads { applies_heads (close (opened (term_tree bank.old value.0) level) (term_tree bank.old term.0))
        ≡ true }
    requires images { AreImages (IsTermImage bank.old (term_tree bank.old value.0)) (get by_spot images.old) }
    ensures shows { IfOk result (ShowsImage bank.old bank.new (term_tree bank.old value.0) (term.0, level)) }
    ensures images { OnOk result (AreImages (IsTermImage bank.new (term_tree bank.old value.0))
        (get by_spot images.new)) }
    ensures keeps { Extends bank.old bank.new }
{
    let mut tasks = Vec::new(bank.alloc());
    tasks.push(Task {
        place: term.0,
        level,
        ready: false,
    })?;
    while let Some(task) = tasks.pop() {
        if task.ready {
            let image = opened_term(bank, task, value, images)?;
            images.insert((task.place, task.level), image)?;
        } else if !images.contains_key(&(task.place, task.level)) {
            push_term(bank, task, &mut tasks)?;
        }
    }
    Ok(term_image(images, term, level))
}

/// Puts the arguments of a term on the stack, above the term itself, which is then ready.
fn push_term(bank: &Bank, task: Task, tasks: &mut Vec<Task>) -> Result<(), OutOfMemory>
    requires { HasTerm bank.now task.place }
    ensures pushed { OnOk result (tasks.new.items ≡ tasks.old.items ++ record {
      place = task.place;
      level = task.level;
      ready = true;
    } ∷ map visit (term_parts_at bank.now (task.place, task.level))) }
    ensures parts { OnOk result (ArePartsOf (term_size_at bank.now) (IsTermGood bank.now) (task.place, task.level)
        (term_parts_at bank.now (task.place, task.level))) }
{
    tasks.push(Task {
        ready: true,
        ..task
    })?;
    match bank.term_at(At(task.place)) {
        TermView::Var(_) => Ok(()),
        TermView::Int(_) => Ok(()),
        TermView::App(_, args) => push_arguments(args, task.level, tasks),
    }
}

/// Puts arguments on the stack.
fn push_arguments(args: &[At], level: usize, tasks: &mut Vec<Task>) -> Result<(), OutOfMemory>
    ensures { OnOk result (tasks.new.items ≡ tasks.old.items ++ map (λ a. visit (a.0, level)) args.now) }
{
    for arg in args {
        tasks.push(Task {
            place: arg.0,
            level,
            ready: false,
        })?;
    }
    Ok(())
}

/// The image of a term, over the images of its arguments.
fn opened_term(
    bank: &mut Bank,
    task: Task,
    value: At,
    images: &TermImages,
) -> Result<At, OutOfMemory>
    requires inside { HasTerm bank.old task.place }
    requires value { HasTerm bank.old value.0 }
    requires heads { applies_heads
        (close (opened (term_tree bank.old value.0) task.level) (term_tree bank.old task.place)) ≡ true }
    requires images { AreImages (IsTermImage bank.old (term_tree bank.old value.0)) (get by_spot images.now) }
    requires parts { (k : Spot) → IsIn k (term_parts_at bank.old (task.place, task.level))
        → IsKnown (get by_spot images.now) k }
    ensures shows { IfOk result (ShowsImage bank.old bank.new (term_tree bank.old value.0) (task.place, task.level)) }
    ensures keeps { Extends bank.old bank.new }
{
    let at = At(task.place);
    match bank.term_at(at) {
        TermView::Var(_) => Ok(at),
        TermView::Int(_) => Ok(at),
        TermView::App(head, args) => {
            let args = term_images(bank.alloc(), images, args, task.level)?;
            open_head(bank, at, task.level, value, head, &args)
        }
    }
}

/// The images of terms that have theirs.
fn term_images(
    alloc: Global,
    images: &TermImages,
    terms: &[At],
    level: usize,
) -> Result<Vec<At>, OutOfMemory>
    requires { All (λ a. IsSome (get by_spot images.now (a.0, level))) terms.now }
    ensures { IfOk result (λ found. map Some found.items ≡ map (λ a. get by_spot images.now (a.0, level)) terms.now) }
{
    let mut found = Vec::new(alloc);
    for term in terms {
        found.push(term_image(images, *term, level))?;
    }
    Ok(found)
}

/// The image of a term.
fn term_image(images: &TermImages, term: At, level: usize) -> At
    requires { IsSome (get by_spot images.now (term.0, level)) }
    ensures { get by_spot images.now (term.0, level) ≡ Some result }
{
    *images.get(&(term.0, level)).unwrap()
}

/// What stands for a head, with these arguments: at the place itself, if it has them.
fn open_head(
    bank: &mut Bank,
    at: At,
    level: usize,
    value: At,
    head: Head,
    args: &[At],
) -> Result<At, OutOfMemory>
    requires inside { HasTerm bank.old at.0 }
    requires value { HasTerm bank.old value.0 }
    requires places { AllInTerms bank.old args.now }
    requires heads { applies_heads (apply (close_head (opened (term_tree bank.old value.0) level) head)
        (term_trees bank.old args.now)) ≡ true }
    ensures shows { IfOk result (λ image. ShowsTerm bank.new image.0
        (apply (close_head (opened (term_tree bank.old value.0) level) head) (term_trees bank.old args.now))) }
    ensures keeps { Extends bank.old bank.new }
{
    match head {
        Head::Bound(k) => open_bound(bank, at, level, value, k, args),
        Head::Name(_) => share_term(bank, at, head, args),
        Head::Eigen(_) => share_term(bank, at, head, args),
    }
}

/// What stands for a bound place, with these arguments. Places further out count down.
fn open_bound(
    bank: &mut Bank,
    at: At,
    level: usize,
    value: At,
    bound: u32,
    args: &[At],
) -> Result<At, OutOfMemory>
    requires inside { HasTerm bank.old at.0 }
    requires value { HasTerm bank.old value.0 }
    requires places { AllInTerms bank.old args.now }
    requires heads { applies_heads (apply (place (opened (term_tree bank.old value.0) level) bound 0)
        (term_trees bank.old args.now)) ≡ true }
    ensures shows { IfOk result (λ image. ShowsTerm bank.new image.0
        (apply (place (opened (term_tree bank.old value.0) level) bound 0) (term_trees bank.old args.now))) }
    ensures keeps { Extends bank.old bank.new }
{
    if bound as usize == level {
        put_value(bank, value, args)
    } else if bound as usize > level {
        bank.app(Head::Bound(bound - 1), args)
    } else {
        share_term(bank, at, Head::Bound(bound), args)
    }
}

/// The value with these arguments.
fn put_value(bank: &mut Bank, value: At, args: &[At]) -> Result<At, OutOfMemory>
    requires value { HasTerm bank.old value.0 }
    requires places { AllInTerms bank.old args.now }
    requires heads { applies_heads (apply (term_tree bank.old value.0) (term_trees bank.old args.now)) ≡ true }
    ensures shows { IfOk result (λ image. ShowsTerm bank.new image.0
        (apply (term_tree bank.old value.0) (term_trees bank.old args.now))) }
    ensures keeps { Extends bank.old bank.new }
{
    if args.is_empty() {
        return Ok(value);
    }
    match bank.term_at(value) {
        TermView::Var(_) => unreachable!(),
        TermView::Int(_) => unreachable!(),
        TermView::App(head, own) => {
            let mut all = Vec::from_slice(bank.alloc(), own)?;
            all.extend_from_slice(args)?;
            bank.app(head, &all)
        }
    }
}

/// A place of the head with these arguments: this one, if it has them.
fn share_term(bank: &mut Bank, at: At, head: Head, args: &[At]) -> Result<At, OutOfMemory>
    requires inside { HasTerm bank.old at.0 }
    requires places { AllInTerms bank.old args.now }
    ensures shows { IfOk result (λ image. ShowsTerm bank.new image.0 (app_term head (term_trees bank.old args.now))) }
    ensures keeps { Extends bank.old bank.new }
{
    if bank.term_at(at) == TermView::App(head, args) {
        Ok(at)
    } else {
        bank.app(head, args)
    }
}
