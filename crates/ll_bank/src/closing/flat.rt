//! Terms without arguments: their images are made at once.
ghost use Rattle.std.specs.Prelude.{◌≡◌, [], true, false, length, map, Any, IfOk, IfSome, IfNone, OnOk};
ghost use Rattle.ll_bank.specs.Term.{close, close_head, Con};
ghost use Rattle.ll_bank.specs.Nodes.{term_tree, term_trees, HasTerm, AllInTerms, ShowsTerm, Extends};
ghost use Rattle.ll_bank.specs.Opened.{term_parts_at};
ghost use Rattle.ll_bank.specs.Closing.{env_in, HasValues, under};

use crate::closing::values::Values;
use crate::{At, Bank, Head, OutOfMemory, TermView};

/// So many arguments are put together without memory.
pub(crate) const FEW: usize = 8;

/// Puts the images of terms in their places; false where one of them has arguments, and then some are in place. The bank may have more
/// places, after a refusal too.
#[inline]
pub(crate) fn close_each(
    bank: &mut Bank,
    terms: &mut [At],
    level: usize,
    values: Values<'_>,
) -> Result<bool, OutOfMemory>
    requires inside { AllInTerms bank.old terms.old }
    requires values { HasValues bank.old values }
    ensures count { OnOk result (length terms.new ≡ length terms.old) }
    ensures places { IfOk result (λ all. all ≡ true → AllInTerms bank.new terms.new) }
    ensures shows { IfOk result (λ all. all ≡ true → term_trees bank.new terms.new
        ≡ map (close (under (env_in bank.old values.entry) level)) (term_trees bank.old terms.old)) }
    ensures other { IfOk result (λ all. all ≡ false
        → Any (λ a. (term_parts_at bank.old (a.0, level) ≡ []) → ⊥) terms.old) }
    ensures keeps { Extends bank.old bank.new }
{
    for index in 0..terms.len() {
        match closed_bare(bank, terms[index], level, values)? {
            Some(image) => terms[index] = image,
            None => return Ok(false),
        }
    }
    Ok(true)
}

/// The image of a term; none where the term has arguments.
#[inline]
fn closed_bare(
    bank: &mut Bank,
    at: At,
    level: usize,
    values: Values<'_>,
) -> Result<Option<At>, OutOfMemory>
    requires inside { HasTerm bank.old at.0 }
    requires values { HasValues bank.old values }
    ensures shows { IfOk result (λ made. IfSome made (λ image. ShowsTerm bank.new image.0
        (close (under (env_in bank.old values.entry) level) (term_tree bank.old at.0)))) }
    ensures none { IfOk result (λ made. IfNone made ((term_parts_at bank.old (at.0, level) ≡ []) → ⊥)) }
    ensures keeps { Extends bank.old bank.new }
{
    match bank.term_at(at) {
        TermView::Var(_) => Ok(Some(at)),
        TermView::Int(_) => Ok(Some(at)),
        TermView::App(head, args) => {
            if args.is_empty() {
                let image = bare_head(bank, at, head, level, values)?;
                Ok(Some(image))
            } else {
                Ok(None)
            }
        }
    }
}

/// The image of a head without arguments, which stands at a place.
#[inline]
fn bare_head(
    bank: &mut Bank,
    at: At,
    head: Head,
    level: usize,
    values: Values<'_>,
) -> Result<At, OutOfMemory>
    requires inside { HasTerm bank.old at.0 }
    requires head { term_tree bank.old at.0 ≡ Con head }
    requires values { HasValues bank.old values }
    ensures shows { IfOk result (λ image. ShowsTerm bank.new image.0
        (close_head (under (env_in bank.old values.entry) level) head)) }
    ensures keeps { Extends bank.old bank.new }
{
    match head {
        Head::Bound(bound) => {
            let number = bound as usize;
            if number < level {
                return Ok(at);
            }
            match values.value(bank, (number - level) as u32)? {
                Some(value) => Ok(value),
                None => bank.app(Head::Bound((number - values.count()) as u32), &[]),
            }
        }
        Head::Name(_) => Ok(at),
        Head::Eigen(_) => Ok(at),
    }
}
