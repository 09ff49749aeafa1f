// What rate steps give beyond the kind: steps from factors, ratios of whole numbers, words, and least natural rates.
ghost use Rattle.std.specs.Prelude.{[], ◌∷◌, ◌++◌, map, Some, codes, decimal};
ghost use Rattle.fractions.specs.Least.{Measure};
ghost use Rattle.rates.specs.Calls.{FromFactor, Ratio, LeastFactor};
ghost use Rattle.rates.specs.Rates.{worth};
ghost use Rattle.rates.specs.Printed.{words};

use super::RateStep;
use crate::factors::LARGEST_FACTOR;
use crate::{exponents, factors};
use std::error::Error;
use std::fmt;
use steps::Step;

// A number that is no factor.
#[derive(Clone, Copy, Debug, PartialEq, Eq, Hash)]
pub struct NotAFactor(pub u32);

impl fmt::Display for NotAFactor {
    ghost output = { λ e. Some (decimal e.0 ++ codes " is no factor") };

    fn fmt<W: fmt::Write>(&self, f: &mut fmt::Formatter<W>) -> fmt::Result {
        write!(f, "{} is no factor", self.0)
    }
}

impl Error for NotAFactor {}

// A numerator or a denominator above 4294967295.
#[derive(Clone, Copy, Debug, PartialEq, Eq, Hash)]
pub struct Overflow;

impl fmt::Display for Overflow {
    ghost output = { λ _. Some (codes "too large") };

    fn fmt<W: fmt::Write>(&self, f: &mut fmt::Formatter<W>) -> fmt::Result {
        f.write_str("too large")
    }
}

impl Error for Overflow {}

// The step of a factor from 1 to 64.
impl TryFrom<u32> for RateStep {
    type Error = NotAFactor;

    ghost try_from_gives = { FromFactor };

    fn try_from(factor: u32) -> Result<RateStep, NotAFactor> {
        if !(1..=LARGEST_FACTOR).contains(&factor) {
            return Err(NotAFactor(factor));
        }
        Ok(RateStep {
            exponents: factors::table()[factor as usize - 1],
        })
    }
}

// The rate as a numerator over a denominator.
impl fmt::Display for RateStep {
    ghost output = { λ step. Some (words (worth step)) };

    fn fmt<W: fmt::Write>(&self, f: &mut fmt::Formatter<W>) -> fmt::Result {
        match self.ratio() {
            Ok((top, bottom)) => write!(f, "{top}/{bottom}"),
            Err(overflow) => overflow.fmt(f),
        }
    }
}

impl RateStep {
    // The rate as a numerator and a denominator without common factor.
    pub fn ratio(&self) -> Result<(u32, u32), Overflow>
        ensures { Ratio (worth self.now) result }
    {
        let numerator = exponents::product(&self.exponents).ok_or(Overflow)?;
        let opposites = exponents::opposites(&self.exponents);
        let denominator = exponents::product(&opposites).ok_or(Overflow)?;
        Ok((numerator, denominator))
    }

    // The greatest common measure: the largest rate that both are whole multiples of.
    pub fn measure(&self, other: &RateStep) -> RateStep
        ensures { Measure (worth self.now ∷ worth other.now ∷ []) (worth result) }
    {
        RateStep {
            exponents: exponents::minima(&self.exponents, &other.exponents),
        }
    }

    // The greatest common measure of all.
    fn measure_of(first: &RateStep, rest: &[RateStep]) -> RateStep
        ensures { Measure (worth first.now ∷ map worth rest.now) (worth result) }
    {
        rest.iter()
            .fold(*first, |common, step| common.measure(step))
    }

    // The least factor that makes every rate a whole number; none where there are no rates.
    pub fn least_factor(all: &[RateStep]) -> Option<RateStep>
        ensures { LeastFactor (map worth all.now) result }
    {
        let (first, rest) = all.split_first()?;
        Some(RateStep::measure_of(first, rest).inverse())
    }
}
