// Entering a statement: it is noted, known already, or refused.
ghost use Rattle.ledger.specs.Ties.{tied};
ghost use Rattle.ledger.specs.Views.{contents};
ghost use Rattle.entries.specs.Outcomes.{Joined, Entered};

use ledger::{Fault, Ledger};
use steps::Step;

// What came of a statement that is not refused.
#[derive(Clone, Copy, Debug, PartialEq, Eq, Hash)]
pub enum Entry {
    Noted,
    Known,
}

// Whether earlier statements join a and b.
fn joined<S: Step>(ledger: &Ledger<S>, a: usize, b: usize) -> bool
    ensures { Joined S.kind S.meaning (contents ledger.now) a b result }
{
    ledger.between(a, b).is_ok_and(|step| step.is_some())
}

// Enters that the value at a is g times the value at b, which is known where earlier statements join a and b.
pub fn enter<S: Step>(ledger: &mut Ledger<S>, a: usize, b: usize, g: &S) -> Result<Entry, Fault>
    ensures { Entered S.kind S.meaning (contents ledger.old) (tied S.kind a b (S.meaning g.now)) result (contents ledger.new) }
{
    let known = joined(ledger, a, b);
    ledger.tie(a, b, g)?;
    Ok(if known { Entry::Known } else { Entry::Noted })
}
