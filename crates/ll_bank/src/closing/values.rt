//! What stands for free bound places.
ghost use Rattle.std.specs.Prelude.{◌≡◌, ◌≤◌, ℕ, length, IfOk, IfSome, IfNone};
ghost use Rattle.ll_bank.specs.Term.{place};
ghost use Rattle.ll_bank.specs.Nodes.{Nodes, Extends, ShowsTerm};
ghost use Rattle.ll_bank.specs.Closing.{env_in, HasValues};

use crate::{At, Bank, Environment, OutOfMemory};

/// What stands for the free bound places of a term or a formula.
#[derive(Clone, Copy)]
pub enum Values<'a> {
    /// What these places show, the outermost first.
    Places(&'a [At]),
    /// The variables of an environment.
    Variables(Environment),
}

impl Values<'_> {
    /// How many bound places have a value.
    #[inline]
    pub(crate) fn count(self) -> usize
        ensures { (nodes : Nodes) → result ≡ length (env_in nodes self.entry) }
    {
        match self {
            Values::Places(values) => values.len(),
            Values::Variables(environment) => environment.count as usize,
        }
    }

    /// A place that shows the value of a bound place, of which the innermost has number 0; none where it has no value. The bank may have one place more.
    #[inline]
    pub(crate) fn value(self, bank: &mut Bank, bound: u32) -> Result<Option<At>, OutOfMemory>
        requires { HasValues bank.old self }
        ensures shows { IfOk result (λ found. (n : ℕ)
            → IfSome found (λ at. ShowsTerm bank.new at.0 (place (env_in bank.old self.entry) bound n))) }
        ensures none { IfOk result (λ found. IfNone found (length (env_in bank.old self.entry) ≤ bound)) }
        ensures keeps { Extends bank.old bank.new }
    {
        match self {
            Values::Places(values) => {
                let number = bound as usize;
                if number < values.len() {
                    Ok(Some(values[values.len() - 1 - number]))
                } else {
                    Ok(None)
                }
            }
            Values::Variables(environment) => match environment.variable(bound) {
                Some(var) => {
                    let place = bank.var(var as u64)?;
                    Ok(Some(place))
                }
                None => Ok(None),
            },
        }
    }
}
