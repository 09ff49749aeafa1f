// How whole spans are made, combined, joined and compared.
ghost use Rattle.std.specs.Prelude.{◌≡◌, true, false, MatchOption};
ghost use Rattle.spans.specs.declared.bound.Bound.TheVariants.{Bottom, At, Top};
ghost use Rattle.spans.specs.Bounds.{lesser, greater};
ghost use Rattle.spans.specs.Combining.{whole_low, whole_high};
ghost use Rattle.spans.specs.Ranges.{within, holds_zero, countable, sound, whole};

use super::WholeSpan;
use crate::bound::Bound;
use crate::operation::Operation;

impl WholeSpan {
    // The span from low to high, if there is one.
    pub(crate) fn between(low: Bound, high: Bound) -> Option<WholeSpan>
        ensures { MatchOption result (sound (whole low high) ≡ false) (λ s. (sound (whole low high) ≡ true) × (s.low ≡ low) × (s.high ≡ high)) }
    {
        if low != Bound::Top && high != Bound::Bottom && low <= high {
            Some(WholeSpan { low, high })
        } else {
            None
        }
    }

    pub(crate) fn at(number: i32) -> WholeSpan
        ensures low { result.low ≡ At number }
        ensures high { result.high ≡ At number }
    {
        WholeSpan {
            low: Bound::At(number),
            high: Bound::At(number),
        }
    }

    pub(crate) fn all() -> WholeSpan
        ensures low { result.low ≡ Bottom }
        ensures high { result.high ≡ Top }
    {
        WholeSpan {
            low: Bound::Bottom,
            high: Bound::Top,
        }
    }

    pub fn low(self) -> Bound
        ensures { result ≡ self.low }
    {
        self.low
    }

    pub fn high(self) -> Bound
        ensures { result ≡ self.high }
    {
        self.high
    }

    // The low and the high bound of what the operation makes. The operation is a value that a patch gives: so no closure.
    #[tactic(auto, using(crate::proofs::Order::derived))]
    fn bounds(self, operation: Operation, other: WholeSpan) -> (Bound, Bound)
        ensures low { result.0 ≡ whole_low operation self.low self.high other.low other.high }
        ensures high { result.1 ≡ whole_high operation self.low self.high other.low other.high }
    {
        match operation {
            Operation::Sum => (
                self.low
                    .made_low(other.low, |x, y| i64::from(x) + i64::from(y)),
                self.high
                    .made_high(other.high, |x, y| i64::from(x) + i64::from(y)),
            ),
            Operation::Difference => (
                self.low
                    .made_low(other.high, |x, y| i64::from(x) - i64::from(y)),
                self.high
                    .made_high(other.low, |x, y| i64::from(x) - i64::from(y)),
            ),
            Operation::Product => self.product(other),
            Operation::Quotient => (Bound::Bottom, Bound::Top),
            Operation::Minimum => (self.low.min(other.low), self.high.min(other.high)),
            Operation::Maximum => (self.low.max(other.low), self.high.max(other.high)),
        }
    }

    #[tactic(auto, using(crate::proofs::Sound::whole_sound))]
    pub(crate) fn combine(self, operation: Operation, other: WholeSpan) -> WholeSpan
        ensures low { result.low ≡ whole_low operation self.low self.high other.low other.high }
        ensures high { result.high ≡ whole_high operation self.low self.high other.low other.high }
    {
        let (low, high) = self.bounds(operation, other);
        WholeSpan { low, high }
    }

    pub(crate) fn join(self, other: WholeSpan) -> WholeSpan
        ensures low { result.low ≡ lesser self.low other.low }
        ensures high { result.high ≡ greater self.high other.high }
    {
        WholeSpan {
            low: self.low.min(other.low),
            high: self.high.max(other.high),
        }
    }

    pub(crate) fn holds_zero(self) -> bool
        ensures { result ≡ holds_zero (whole self.low self.high) }
    {
        self.low <= Bound::At(0) && Bound::At(0) <= self.high
    }

    pub(crate) fn within(self, outer: WholeSpan) -> bool
        ensures { result ≡ within (whole self.low self.high) (whole outer.low outer.high) }
    {
        outer.low <= self.low && self.high <= outer.high
    }

    // From 0 or more up to a number.
    pub(crate) fn is_countable(self) -> bool
        ensures { result ≡ countable (whole self.low self.high) }
    {
        Bound::At(0) <= self.low && self.high.number().is_some()
    }
}
