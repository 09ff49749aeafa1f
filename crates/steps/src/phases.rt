// Phase steps: two signals have the same phase, or opposite ones.
ghost use Rattle.std.specs.Prelude.{Some};
ghost use Rattle.steps.specs.Phases.{phases, flips, words};
ghost use Rattle.std.proofs.Common.{rules};

use crate::kind::Step;
use std::fmt;

// The largest size of a tie: steps of phases have no other.
const LARGEST: u32 = 0;

#[derive(Clone, Copy, Debug, PartialEq, Eq, Hash)]
pub enum Phase {
    Same,
    Opposite,
}

impl fmt::Display for Phase {
    ghost output = { λ phase. Some (words phase) };

    fn fmt<W: fmt::Write>(&self, f: &mut fmt::Formatter<W>) -> fmt::Result {
        f.write_str(match self {
            Self::Same => "in phase",
            Self::Opposite => "opposite",
        })
    }
}

impl Step for Phase {
    ghost kind = { phases };

    ghost meaning = { flips };

    ghost lawful = { Prim.search rules };

    ghost commutes = { Prim.search rules };

    fn unit() -> Phase {
        Phase::Same
    }

    fn compose(&self, other: &Phase) -> Option<Phase> {
        match (*self, *other) {
            (Phase::Same, step) => Some(step),
            (step, Phase::Same) => Some(step),
            (Phase::Opposite, Phase::Opposite) => Some(Phase::Same),
        }
    }

    fn inverse(&self) -> Phase {
        *self
    }

    fn equals(&self, other: &Phase) -> bool {
        self == other
    }

    fn size(&self) -> u32 {
        0
    }

    fn largest() -> u32 {
        LARGEST
    }
}
