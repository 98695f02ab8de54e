//! Terms in place of the variables of a formula.
//!
//! A bank has the parts of a term or formula at lower places than the whole. So each place gets its image in turn, over those of its
//! parts, as far as the formula goes.
ghost use Rattle.std.specs.Prelude.{◌≡◌, ℕ, ◌≤◌, ◌<◌, List, length, map, slice_index_or, All, IfOk, OnOk};
ghost use Rattle.ll_bank.specs.declared.At.{At};
ghost use Rattle.ll_bank.specs.Term.{Term, sub};
ghost use Rattle.ll_bank.specs.Form.{Use, sub_form};
ghost use Rattle.ll_bank.specs.Nodes.{Nodes, UseNode, node_of, form_of, HasPartsBelow, HasParts};
ghost use Rattle.ll_bank.specs.Nodes.{term_tree, form_tree, term_trees, HasForm, HasTerm, AllInTerms, ShowsForm, ShowsTerm, Extends};
ghost use Rattle.ll_sequent.specs.Starting.{values as values_of};
ghost use Rattle.ll_sequent.specs.Substituted.{AreTermImages, AreFormImages};

use ll_bank::{At, Bank, FormAt, FormNode, OutOfMemory, TermView};
use std::alloc::Global;

/// A formula with values in place of its variables, that of variable n in place n. Other variables stay.
pub(crate) fn substituted(
    alloc: Global,
    bank: &mut Bank,
    form: FormAt,
    values: &[At],
) -> Result<FormAt, OutOfMemory>
    requires form { HasForm bank.old form.0 }
    requires values { AllInTerms bank.old values.now }
    ensures shows { IfOk result (λ image. ShowsForm bank.new image.0
        (sub_form (values_of (term_trees bank.old values.now)) (form_tree bank.old form.0))) }
    ensures keeps { Extends bank.old bank.new }
{
    let mut terms = Vec::new(alloc);
    let mut forms = Vec::new(alloc);
    'growth: while forms.len() <= form.0 {
        let place = FormAt(forms.len());
        let image = form_image(alloc, bank, place, values, &mut terms, &forms)?;
        forms.push(image)?;
    }
    Ok(forms[form.0])
}

/// The image of a formula, over the images of the formulas at lower places.
fn form_image(
    alloc: Global,
    bank: &mut Bank,
    form: FormAt,
    values: &[At],
    terms: &mut Vec<At>,
    forms: &[FormAt],
) -> Result<FormAt, OutOfMemory>
    requires form { HasForm bank.old form.0 }
    requires below { form.0 ≤ length forms.now }
    requires values { AllInTerms bank.old values.now }
    requires terms { AreTermImages bank.old (term_trees bank.old values.now) terms.old.items }
    requires forms { AreFormImages bank.old (term_trees bank.old values.now) forms.now }
    ensures shows { IfOk result (λ image. ShowsForm bank.new image.0
        (sub_form (values_of (term_trees bank.old values.now)) (form_tree bank.old form.0))) }
    ensures terms { OnOk result (AreTermImages bank.new (term_trees bank.old values.now) terms.new.items) }
    ensures keeps { Extends bank.old bank.new }
{
    match bank.form_at(form) {
        FormNode::Atom(atom) => {
            let image = term_image(alloc, bank, atom, values, terms)?;
            bank.form(FormNode::Atom(image))
        }
        FormNode::Use(module, args, f) => {
            let args = Vec::from_slice(alloc, args)?;
            load_image(alloc, bank, module, &args, forms[f.0], values, terms)
        }
        FormNode::Is(left, right) => {
            let (left, right) = two_images(alloc, bank, left, right, values, terms)?;
            bank.form(FormNode::Is(left, right))
        }
        FormNode::Less(left, right) => {
            let (left, right) = two_images(alloc, bank, left, right, values, terms)?;
            bank.form(FormNode::Less(left, right))
        }
        FormNode::Most(left, right) => {
            let (left, right) = two_images(alloc, bank, left, right, values, terms)?;
            bank.form(FormNode::Most(left, right))
        }
        node => {
            let image = over_images(node, forms);
            bank.form(image)
        }
    }
}

/// The node over the images of the formulas under it. It is one without terms.
fn over_images(node: FormNode<'_>, forms: &[FormAt]) -> FormNode<'static>
    requires plain { HasPartsBelow 0 (length forms.now) node }
    requires no_load { (m : ℕ) (args : List ℕ) (f : ℕ) → node_of node ≡ UseNode m args f → ⊥ }
    ensures { (bank : Nodes) (ts : List Term) → AreFormImages bank ts forms.now
        → HasParts bank result × (form_of bank result ≡ sub_form (values_of ts) (form_of bank node.entry)) }
{
    match node {
        FormNode::Top => FormNode::Top,
        FormNode::One => FormNode::One,
        FormNode::With(f, g) => FormNode::With(forms[f.0], forms[g.0]),
        FormNode::Tensor(f, g) => FormNode::Tensor(forms[f.0], forms[g.0]),
        FormNode::Plus(f, g) => FormNode::Plus(forms[f.0], forms[g.0]),
        FormNode::Bang(f) => FormNode::Bang(forms[f.0]),
        FormNode::Lolli(f, g) => FormNode::Lolli(forms[f.0], forms[g.0]),
        FormNode::Imp(f, g) => FormNode::Imp(forms[f.0], forms[g.0]),
        FormNode::Forall(f) => FormNode::Forall(forms[f.0]),
        FormNode::Exists(f) => FormNode::Exists(forms[f.0]),
        _ => unreachable!(),
    }
}

/// A module load with the images of its arguments, over the image of its goal.
fn load_image(
    alloc: Global,
    bank: &mut Bank,
    number: u32,
    args: &[At],
    body: FormAt,
    values: &[At],
    terms: &mut Vec<At>,
) -> Result<FormAt, OutOfMemory>
    requires args { AllInTerms bank.old args.now }
    requires body { HasForm bank.old body.0 }
    requires values { AllInTerms bank.old values.now }
    requires terms { AreTermImages bank.old (term_trees bank.old values.now) terms.old.items }
    ensures shows { IfOk result (λ image. ShowsForm bank.new image.0
        (Use number (map (sub (values_of (term_trees bank.old values.now))) (term_trees bank.old args.now))
        (form_tree bank.old body.0))) }
    ensures terms { OnOk result (AreTermImages bank.new (term_trees bank.old values.now) terms.new.items) }
    ensures keeps { Extends bank.old bank.new }
{
    let images = term_images(alloc, bank, args, values, terms)?;
    bank.form(FormNode::Use(number, &images, body))
}

/// The images of two terms.
fn two_images(
    alloc: Global,
    bank: &mut Bank,
    left: At,
    right: At,
    values: &[At],
    terms: &mut Vec<At>,
) -> Result<(At, At), OutOfMemory>
    requires left { HasTerm bank.old left.0 }
    requires right { HasTerm bank.old right.0 }
    requires values { AllInTerms bank.old values.now }
    requires terms { AreTermImages bank.old (term_trees bank.old values.now) terms.old.items }
    ensures left { IfOk result (λ images. ShowsTerm bank.new images.0.0
        (sub (values_of (term_trees bank.old values.now)) (term_tree bank.old left.0))) }
    ensures right { IfOk result (λ images. ShowsTerm bank.new images.1.0
        (sub (values_of (term_trees bank.old values.now)) (term_tree bank.old right.0))) }
    ensures terms { OnOk result (AreTermImages bank.new (term_trees bank.old values.now) terms.new.items) }
    ensures keeps { Extends bank.old bank.new }
{
    let first = term_image(alloc, bank, left, values, terms)?;
    let second = term_image(alloc, bank, right, values, terms)?;
    Ok((first, second))
}

/// The images of terms.
fn term_images(
    alloc: Global,
    bank: &mut Bank,
    places: &[At],
    values: &[At],
    terms: &mut Vec<At>,
) -> Result<Vec<At>, OutOfMemory>
    requires places { AllInTerms bank.old places.now }
    requires values { AllInTerms bank.old values.now }
    requires terms { AreTermImages bank.old (term_trees bank.old values.now) terms.old.items }
    ensures inside { IfOk result (λ images. AllInTerms bank.new images.items) }
    ensures shows { IfOk result (λ images. term_trees bank.new images.items
        ≡ map (sub (values_of (term_trees bank.old values.now))) (term_trees bank.old places.now)) }
    ensures terms { OnOk result (AreTermImages bank.new (term_trees bank.old values.now) terms.new.items) }
    ensures keeps { Extends bank.old bank.new }
{
    let mut images = Vec::new(alloc);
    for place in places {
        let image = term_image(alloc, bank, *place, values, terms)?;
        images.push(image)?;
    }
    Ok(images)
}

/// The image of a term. Those of all terms at lower places come to the images that there are.
fn term_image(
    alloc: Global,
    bank: &mut Bank,
    term: At,
    values: &[At],
    terms: &mut Vec<At>,
) -> Result<At, OutOfMemory>
    requires term { HasTerm bank.old term.0 }
    requires values { AllInTerms bank.old values.now }
    requires terms { AreTermImages bank.old (term_trees bank.old values.now) terms.old.items }
    ensures shows { IfOk result (λ image. ShowsTerm bank.new image.0
        (sub (values_of (term_trees bank.old values.now)) (term_tree bank.old term.0))) }
    ensures terms { OnOk result (AreTermImages bank.new (term_trees bank.old values.now) terms.new.items) }
    ensures keeps { Extends bank.old bank.new }
{
    'growth: while terms.len() <= term.0 {
        let place = At(terms.len());
        let image = next_image(alloc, bank, place, values, terms)?;
        terms.push(image)?;
    }
    Ok(terms[term.0])
}

/// The image of a term, over the images of the terms at lower places.
fn next_image(
    alloc: Global,
    bank: &mut Bank,
    term: At,
    values: &[At],
    terms: &[At],
) -> Result<At, OutOfMemory>
    requires term { HasTerm bank.old term.0 }
    requires below { term.0 ≤ length terms.now }
    requires values { AllInTerms bank.old values.now }
    requires terms { AreTermImages bank.old (term_trees bank.old values.now) terms.now }
    ensures shows { IfOk result (λ image. ShowsTerm bank.new image.0
        (sub (values_of (term_trees bank.old values.now)) (term_tree bank.old term.0))) }
    ensures keeps { Extends bank.old bank.new }
{
    match bank.term_at(term) {
        TermView::Var(number) => Ok(*values.get(number as usize).unwrap_or(&term)),
        TermView::Int(_) => Ok(term),
        TermView::App(head, args) => {
            let images = images_of(alloc, args, terms)?;
            bank.app(head, &images)
        }
    }
}

/// The images of terms that have theirs.
fn images_of(alloc: Global, places: &[At], terms: &[At]) -> Result<Vec<At>, OutOfMemory>
    requires { All (λ (a : At). a.0 < length terms.now) places.now }
    ensures { IfOk result (λ images. images.items ≡ map (λ (a : At). slice_index_or terms.now a.0 a) places.now) }
{
    let mut images = Vec::new(alloc);
    for place in places {
        images.push(terms[place.0])?;
    }
    Ok(images)
}
