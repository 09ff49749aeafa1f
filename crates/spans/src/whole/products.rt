// The products of the bounds of two whole spans.
ghost use Rattle.std.specs.Prelude.{◌≡◌, Some, None};
ghost use Rattle.spans.specs.declared.operation.Operation.TheVariants.{Product};
ghost use Rattle.spans.specs.Combining.{least_product, greatest_product, by_numbers, whole_low, whole_high};

use super::WholeSpan;
use crate::bound::Bound;

impl WholeSpan {
    // The least and the greatest of the four products of bounds, where all bounds are numbers.
    fn extremes(self, other: WholeSpan) -> Option<(i64, i64)>
        ensures { result ≡ by_numbers self.low self.high other.low other.high None (λ a b c d. Some (least_product a b c d, greatest_product a b c d)) }
    {
        let (a, b) = self.low.numbers(self.high)?;
        let (c, d) = other.low.numbers(other.high)?;
        let (a, b, c, d) = (i64::from(a), i64::from(b), i64::from(c), i64::from(d));
        let (ac, ad, bc, bd) = (a * c, a * d, b * c, b * d);
        let least = ac.min(ad).min(bc.min(bd));
        let greatest = ac.max(ad).max(bc.max(bd));
        Some((least, greatest))
    }

    // The low and the high bound of products.
    pub(super) fn product(self, other: WholeSpan) -> (Bound, Bound)
        ensures low { result.0 ≡ whole_low Product self.low self.high other.low other.high }
        ensures high { result.1 ≡ whole_high Product self.low self.high other.low other.high }
    {
        match self.extremes(other) {
            Some((least, greatest)) => (Bound::low(least), Bound::high(greatest)),
            None => (Bound::Bottom, Bound::Top),
        }
    }
}
