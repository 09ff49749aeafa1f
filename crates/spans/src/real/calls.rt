// How real spans are made, combined, joined and compared.
ghost use Rattle.std.specs.Prelude.{◌≡◌, true, false, MatchOption, from_bits};
ghost use Rattle.std.specs.Float.{float_min, float_max, inf, binary64};
ghost use Rattle.spans.specs.Bounds.{as_real};
ghost use Rattle.spans.specs.Combining.{real_low, real_high};
ghost use Rattle.spans.specs.Ranges.{within, holds_zero, sound, real, turned};
ghost use Rattle.spans.specs.Spans.{real_range, whole_range};

use super::RealSpan;
use crate::operation::Operation;
use crate::whole::WholeSpan;
use std::num::f64_from_bits_with_nan;

// The pattern of -0, which is no bound.
const MINUS_ZERO: u64 = 0x8000_0000_0000_0000;

// A whole span, turned real.
impl From<WholeSpan> for RealSpan {
    ghost from_gives = { λ span result. real_range result ≡ turned (whole_range span) };

    #[tactic(auto, using(crate::proofs::Sound::turned_sound))]
    fn from(span: WholeSpan) -> RealSpan {
        RealSpan {
            low: span.low().into(),
            high: span.high().into(),
        }
    }
}

impl RealSpan {
    // The span between the floats of two bit patterns, if there is one: an arm of `Span::try_from`, since a row has them as two numbers.
    #[tactic(auto, using(floats::proofs::Patterns::patterns))]
    pub(crate) fn from_bits(low: u64, high: u64) -> Option<RealSpan>
        ensures { MatchOption result (sound (real (from_bits binary64 low) (from_bits binary64 high)) ≡ false) (λ s. (sound (real (from_bits binary64 low) (from_bits binary64 high)) ≡ true) × (s.low ≡ from_bits binary64 low) × (s.high ≡ from_bits binary64 high)) }
    {
        if low == MINUS_ZERO || high == MINUS_ZERO {
            return None;
        }
        let low = f64_from_bits_with_nan(low);
        let high = f64_from_bits_with_nan(high);
        if low <= high {
            Some(RealSpan { low, high })
        } else {
            None
        }
    }

    // The two bit patterns: an arm of `SpanRow::from`.
    #[tactic(auto, using(floats::proofs::Patterns::patterns))]
    pub(crate) fn to_bits(self) -> (u64, u64)
        ensures low { from_bits binary64 result.0 ≡ self.low }
        ensures high { from_bits binary64 result.1 ≡ self.high }
    {
        (self.low.to_bits(), self.high.to_bits())
    }

    #[tactic(auto, using(floats::proofs::Patterns::literals, crate::proofs::Sound::real_sound))]
    pub(crate) fn all() -> RealSpan
        ensures low { result.low ≡ inf true }
        ensures high { result.high ≡ inf false }
    {
        RealSpan {
            low: f64::NEG_INFINITY,
            high: f64::INFINITY,
        }
    }

    // The low and the high bound of what the operation makes. The operation is a value that a patch gives: so no closure.
    #[tactic(auto, using(floats::proofs::Patterns::literals, floats::proofs::Equal::either_way))]
    fn bounds(self, operation: Operation, other: RealSpan) -> (f64, f64)
        ensures low { result.0 ≡ real_low operation self.low other.low }
        ensures high { result.1 ≡ real_high operation self.high other.high }
    {
        match operation {
            Operation::Sum | Operation::Difference | Operation::Product | Operation::Quotient => (
                f64::NEG_INFINITY,
                f64::INFINITY,
            ),
            Operation::Minimum => (self.low.min(other.low), self.high.min(other.high)),
            Operation::Maximum => (self.low.max(other.low), self.high.max(other.high)),
        }
    }

    #[tactic(auto, using(crate::proofs::Sound::real_sound))]
    pub(crate) fn combine(self, operation: Operation, other: RealSpan) -> RealSpan
        ensures low { result.low ≡ real_low operation self.low other.low }
        ensures high { result.high ≡ real_high operation self.high other.high }
    {
        let (low, high) = self.bounds(operation, other);
        RealSpan { low, high }
    }

    #[tactic(auto, using(floats::proofs::Equal::either_way, crate::proofs::Sound::real_joined))]
    pub(crate) fn join(self, other: RealSpan) -> RealSpan
        ensures low { result.low ≡ float_min self.low other.low }
        ensures high { result.high ≡ float_max self.high other.high }
    {
        RealSpan {
            low: self.low.min(other.low),
            high: self.high.max(other.high),
        }
    }

    #[tactic(auto, using(floats::proofs::Patterns::literals))]
    pub(crate) fn holds_zero(self) -> bool
        ensures { result ≡ holds_zero (real self.low self.high) }
    {
        self.low <= 0.0 && 0.0 <= self.high
    }

    pub(crate) fn within(self, outer: RealSpan) -> bool
        ensures { result ≡ within (real self.low self.high) (real outer.low outer.high) }
    {
        outer.low <= self.low && self.high <= outer.high
    }
}
