// A span of whole numbers, with its invariant.
ghost use Rattle.std.specs.Prelude.{◌≡◌, true};
ghost use Rattle.spans.specs.Bounds.{at_most, is_low, is_high};

use crate::bound::Bound;

mod calls;
mod products;

#[derive(Clone, Copy, Debug, PartialEq, Eq, Hash)]
pub struct WholeSpan {
    low: Bound,
    high: Bound,
    ghost starts: { is_low low ≡ true },
    ghost ends: { is_high high ≡ true },
    ghost ordered: { at_most low high ≡ true },
}
