//! What stands in front of arguments: a name or a variable, as it is put into a bank.

ghost use Rattle.std.specs.Prelude.{◌≡◌, ◌+◌, ◌^◌, ◌<◌, length, unwrap_or, IfOk};
ghost use Rattle.ll_bank.specs.Term.{Var, Con, app as app_term};
ghost use Rattle.ll_bank.specs.Nodes.{term_trees, AllInTerms, ShowsTerm, Extends};
ghost use Rattle.ll_bank.specs.declared.Head.TheVariants.{Bound as BoundHead};
ghost use Rattle.ll_polarity.specs.Numbered.{text_of};
ghost use Rattle.ll_polarity.specs.Built.{put_term, applied};
ghost use Rattle.ll_polarity.specs.Standing.{met_of, front_term, HasRoom};
ghost use Rattle.ll_polarity.specs.Spots.{Stands, texts_of, name_at};

use crate::scope::Meaning;
use crate::text::Spot;
use crate::variables::Variables;
use ll_bank::{At, Bank, Head, Names, OutOfMemory};

/// What was met so far: the names of the problem, and the variables of the clause or query at hand.
#[derive(Drop)]
pub struct Met {
    pub names: Names,
    pub variables: Variables,
}

/// Where a part of a formula stands.
#[derive(Clone, Copy)]
pub struct Place {
    /// How many quantifiers are put round the formula for its variables, `None` where these stay.
    pub quantified: Option<u32>,
    /// How many quantifiers of the text stand round the part.
    pub depth: u32,
}

/// What stands in front of arguments.
#[derive(Clone, Copy)]
pub enum Front {
    /// The variable with this number, which has no arguments.
    Variable(u32),
    /// A head.
    Head(Head),
}

impl Place {
    /// The variable with this number.
    pub fn variable(self, number: u32) -> Front
        requires { self.depth + unwrap_or self.quantified 0 < 2 ^ 32 }
        ensures { front_term result ≡ put_term self.quantified self.depth (Var number) }
    {
        match self.quantified {
            None => Front::Variable(number),
            Some(count) => {
                let inner = count.saturating_sub(number).saturating_sub(1);
                Front::Head(Head::Bound(self.depth + inner))
            }
        }
    }

    /// What the binder binds that is this many binders further out.
    pub fn binder(self, further: usize) -> Front
        requires { further + unwrap_or self.quantified 0 < 2 ^ 32 }
        ensures { front_term result ≡ put_term self.quantified self.depth (Con (BoundHead further)) }
    {
        let further = further as u32;
        match self.quantified {
            None => Front::Head(Head::Bound(further)),
            Some(count) => {
                if further < self.depth {
                    Front::Head(Head::Bound(further))
                } else {
                    Front::Head(Head::Bound(further + count))
                }
            }
        }
    }
}

/// What a name stands for.
pub fn front_of(spot: &Spot<'_>, met: &mut Met, name: u32) -> Result<Front, OutOfMemory>
    requires stands { Stands spot.now }
    requires name { name < length (texts_of spot.now) }
    requires text { 0 < length (text_of (texts_of spot.now) name) }
    requires room { HasRoom (name_at spot.now met.old name).met }
    ensures front { IfOk result (λ f. front_term f
        ≡ put_term spot.now.place.quantified spot.now.place.depth (name_at spot.now met.old name).it) }
    ensures met { IfOk result (λ _. met_of (texts_of spot.now) met.new ≡ (name_at spot.now met.old name).met) }
{
    match spot.binders.meaning(name) {
        Meaning::Bound(further) => Ok(spot.place.binder(further)),
        Meaning::Local(further) => Ok(spot.place.binder(further)),
        Meaning::Free => {
            let number = met.variables.add(name)?;
            Ok(spot.place.variable(number))
        }
        Meaning::Constant => {
            let number = met.names.add(spot.text.names.text(name))?;
            Ok(Front::Head(Head::Name(number)))
        }
    }
}

/// A front with arguments.
pub fn with_arguments(bank: &mut Bank, front: Front, args: &[At]) -> Result<At, OutOfMemory>
    requires { AllInTerms bank.old args.now }
    ensures shows { IfOk result (λ at. ShowsTerm bank.new at.0
        (applied (front_term front) (term_trees bank.old args.now))) }
    ensures keeps { Extends bank.old bank.new }
{
    match front {
        Front::Variable(number) => bank.var(u64::from(number)),
        Front::Head(head) => bank.app(head, args),
    }
}
