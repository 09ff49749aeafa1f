// Rate steps are a kind of step.
ghost use Rattle.fractions.proofs.Laws.{comm};
ghost use Rattle.rates.specs.Rates.{rates, worth};
ghost use Rattle.rates.specs.Lawful.{rate_laws};

use super::RateStep;
use crate::exponents;
use crate::primes::COUNT;
use steps::{SIZE_LIMIT, Step};

// The largest size of a tie: that of the largest factor, 2 to the 6.
const LARGEST_TIE: u32 = 6;

impl Step for RateStep {
    ghost kind = { rates };

    ghost meaning = { worth };

    ghost lawful = { rate_laws };

    ghost commutes = { comm };

    #[tactic(auto, unfolding(fractions::specs::Exponents::norm))]
    fn unit() -> RateStep {
        RateStep {
            exponents: [0; COUNT],
        }
    }

    #[tactic(auto, using(crate::proofs::Worth::size_rate, crate::proofs::Worth::rate_add, fractions::proofs::Norms::norm_add))]
    fn compose(&self, other: &RateStep) -> Option<RateStep> {
        if self.size() + other.size() > SIZE_LIMIT {
            return None;
        }
        Some(RateStep {
            exponents: exponents::sums(&self.exponents, &other.exponents),
        })
    }

    #[tactic(auto, using(crate::proofs::Worth::rate_neg, fractions::proofs::Norms::norm_neg))]
    fn inverse(&self) -> RateStep {
        RateStep {
            exponents: exponents::opposites(&self.exponents),
        }
    }

    fn equals(&self, other: &RateStep) -> bool {
        self == other
    }

    #[tactic(auto, using(crate::proofs::Worth::size_rate))]
    fn size(&self) -> u32 {
        exponents::largest(&self.exponents)
    }

    fn largest() -> u32 {
        LARGEST_TIE
    }
}
