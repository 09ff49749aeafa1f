// How a point of a ledger stands to another.
ghost use Rattle.ledger.specs.Views.{contents};
ghost use Rattle.entries.specs.Standings.{Against, standing_text};

use ledger::Ledger;
use std::fmt;
use steps::Step;

// The step that ties a to b, where statements join them.
pub fn against<S: Step>(ledger: &Ledger<S>, a: usize, b: usize) -> Option<S>
    ensures { Against S.kind S.meaning (contents ledger.now) a b result }
{
    ledger.between(a, b).ok().flatten()
}

// The step of a point against another, as it is printed.
#[derive(Debug, Drop)]
pub struct Standing<S>(pub Option<S>);

impl<S: fmt::Display + Drop> fmt::Display for Standing<S> {
    ghost output = { λ standing. standing_text S.output standing.0 };

    fn fmt<W: fmt::Write>(&self, f: &mut fmt::Formatter<W>) -> fmt::Result {
        match &self.0 {
            Some(step) => step.fmt(f),
            None => f.write_str("not known"),
        }
    }
}
