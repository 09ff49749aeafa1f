// A span of 64-bit floats, with its invariant.
// It shares its shape with `WholeSpan`, and little else: conditions, order and combining differ, so one generic struct would be longer.
ghost use Rattle.std.specs.Prelude.{◌≡◌, true};
ghost use Rattle.std.specs.Float.Ieee.{le};
ghost use Rattle.floats.specs.Floats.{proper};

mod calls;

#[derive(Clone, Copy, Debug, PartialEq)]
pub struct RealSpan {
    low: f64,
    high: f64,
    ghost starts: { proper low ≡ true },
    ghost ends: { proper high ≡ true },
    ghost ordered: { le low high ≡ true },
}
