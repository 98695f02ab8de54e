//! What takes the events of a search until it has had enough answers.
ghost use Rattle.std.specs.Prelude.{◌≡◌, ◌↔◌, ◌<◌, ◌≤◌, true};
ghost use Rattle.ll_laws.specs.declared.Event.{Event};
ghost use Rattle.ll_laws.specs.Search.{is_answer as is_answer_of};
ghost use Rattle.ll_first.specs.Upto.{IsLimit, counted};

use ll_laws::Notice;
use ll_order::{OutFault, Outlet};

/// An outlet that wants so many answers, and tells when it has had them. It takes what comes behind them, too.
pub trait Enough: Outlet {
    ghost use Rattle.std.specs.Prelude.{ℕ};
    ghost use Rattle.ll_laws.specs.declared.Event.{Event};

    // How many answers it wants.
    ghost limit: { Self → ℕ };

    // How many answers it has taken. The count stands still at the greatest `u64`.
    ghost answers: { Self → ℕ };

    /// How many answers it wants: at least 1.
    fn limit(&self) -> u64
        ensures { result ≡ limit self.now };

    /// Whether it has taken as many answers as it wants.
    fn enough(&self) -> bool
        ensures { (result ≡ true) ↔ (limit self.now ≤ answers self.now) };

    // The limit is a number of 64 bits that is at least 1.
    ghost limited: { (outlet : Self) → IsLimit (limit outlet) };

    // An event that is taken is counted where it is an answer.
    ghost counts: { (before : Self) (event : Event) (after : Self) → Self.takes before event after
        → (limit after ≡ limit before) × (answers after ≡ counted (answers before) event) };

    // An event that is refused is not.
    ghost keeps: { (before : Self) (event : Event) (after : Self) → Self.breaks before event after
        → (limit after ≡ limit before) × (answers after ≡ answers before) };
}

/// An outlet that hands each event on to the one within, and counts the answers that this one took.
#[derive(Drop)]
pub struct First<O> {
    /// The outlet within.
    pub out: O,
    limit: u64,
    answers: u64,
    pub ghost limited: { IsLimit limit },
}

impl<O: Outlet> First<O> {
    /// An outlet that wants so many answers, at least 1, and has taken none.
    pub fn new(out: O, limit: u64) -> First<O>
        requires { 0 < limit }
        ensures out { result.out ≡ out }
        ensures limit { result.limit ≡ limit }
        ensures answers { result.answers ≡ 0 }
    {
        First {
            out,
            limit,
            answers: 0,
        }
    }

    /// The outlet within. The program does not call it: its outlet is lent.
    pub fn into_inner(self) -> O
        ensures { result ≡ self.out }
    {
        let First {
            out,
            limit: _,
            answers: _,
        } = self;
        out
    }
}

impl<O: Outlet> Outlet for First<O> {
    type Found = O::Found;

    ghost takes = { λ before event after. O.takes before.out event after.out × (after.limit ≡ before.limit) × (after.answers ≡ counted before.answers event) };

    ghost breaks = { λ before event after. O.breaks before.out event after.out × (after.limit ≡ before.limit) × (after.answers ≡ before.answers) };

    ghost welcome = { λ outlet event. O.welcome outlet.out event };

    ghost faults = { λ outlet. O.faults outlet.out };

    fn event(&mut self, event: O::Found) -> Result<(), OutFault> {
        let answers = count(self.answers, event.is_answer());
        match self.out.event(event) {
            Ok(()) => {
                self.answers = answers;
                Ok(())
            }
            Err(fault) => Err(fault),
        }
    }
}

impl<O: Outlet> Enough for First<O> {
    ghost limit = { λ outlet. outlet.limit };

    ghost answers = { λ outlet. outlet.answers };

    ghost limited = { λ outlet. outlet.limited };

    ghost counts = { λ before event after h. (h.1, h.2) };

    ghost keeps = { λ before event after h. (h.1, h.2) };

    fn limit(&self) -> u64 {
        self.limit
    }

    fn enough(&self) -> bool {
        self.answers >= self.limit
    }
}

// So many answers, and one more where there is one.
fn count(answers: u64, is_answer: bool) -> u64
    ensures { (event : Event) → is_answer ≡ is_answer_of event → result ≡ counted answers event }
{
    if is_answer {
        return answers.saturating_add(1);
    }
    answers
}
