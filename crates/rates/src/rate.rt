// A rate step: exponents that are no larger than steps may have.
ghost use Rattle.std.specs.Prelude.{◌≤◌};
ghost use Rattle.steps.specs.Kind.{limit};
ghost use Rattle.fractions.specs.Exponents.{norm};

use crate::primes::COUNT;

mod calls;
mod kind;

pub use calls::{NotAFactor, Overflow};

#[derive(Clone, Copy, Debug, PartialEq, Eq, Hash)]
pub struct RateStep {
    exponents: [i32; COUNT],
    ghost within: { norm exponents ≤ limit },
}
