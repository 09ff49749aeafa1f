// A bound of a whole span.
ghost use Rattle.spans.specs.declared.bound.Bound.TheVariants.{Bottom, Top};
ghost use Rattle.std.specs.Prelude.{MatchOption, ℤ, ◌≡◌};
ghost use Rattle.spans.specs.Bounds.{bound_at, low_bound, high_bound, number, as_real};
ghost use Rattle.spans.specs.Combining.{both_numbers};

#[derive(Clone, Copy, Debug, PartialEq, Eq, Hash, PartialOrd, Ord)]
pub enum Bound {
    // below every number
    Bottom,
    At(i32),
    // above every number
    Top,
}

// Exact: a float holds every 32-bit number.
impl From<Bound> for f64 {
    ghost from_gives = { λ bound result. result ≡ as_real bound };

    #[tactic(auto, using(floats::proofs::Patterns::literals))]
    fn from(bound: Bound) -> f64 {
        match bound {
            Bound::Bottom => f64::NEG_INFINITY,
            Bound::At(number) => f64::from(number),
            Bound::Top => f64::INFINITY,
        }
    }
}

impl Bound {
    pub(crate) fn number(self) -> Option<i32>
        ensures { result ≡ number self }
    {
        match self {
            Bound::At(number) => Some(number),
            Bound::Bottom | Bound::Top => None,
        }
    }

    // Both numbers, where both bounds are numbers.
    pub(crate) fn numbers(self, other: Bound) -> Option<(i32, i32)>
        ensures { result ≡ both_numbers self other }
    {
        Some((self.number()?, other.number()?))
    }

    // The low bound that two bounds make by f, the bottom unless both are numbers.
    pub(crate) fn made_low<F: FnOnce(i32, i32) -> i64>(self, other: Bound, f: F) -> Bound
        requires { F.IsAlwaysCallable f }
        ensures { MatchOption (both_numbers self other) (result ≡ Bottom) (λ q. (z : ℤ) × F.post f q.0 q.1 z × (result ≡ low_bound z)) }
    {
        match self.numbers(other) {
            Some((x, y)) => Bound::low(f(x, y)),
            None => Bound::Bottom,
        }
    }

    // The high bound in the same way, the top unless both are numbers.
    pub(crate) fn made_high<F: FnOnce(i32, i32) -> i64>(self, other: Bound, f: F) -> Bound
        requires { F.IsAlwaysCallable f }
        ensures { MatchOption (both_numbers self other) (result ≡ Top) (λ q. (z : ℤ) × F.post f q.0 q.1 z × (result ≡ high_bound z)) }
    {
        match self.numbers(other) {
            Some((x, y)) => Bound::high(f(x, y)),
            None => Bound::Top,
        }
    }

    // At the number, or another bound where it is below 32 bits or above them.
    fn at(number: i64, below: Bound, above: Bound) -> Bound
        ensures { result ≡ bound_at number below above }
    {
        match i32::try_from(number) {
            Ok(number) => Bound::At(number),
            Err(_) if number < 0 => below,
            Err(_) => above,
        }
    }

    // Below 32 bits the bottom, above them the largest number.
    pub(crate) fn low(number: i64) -> Bound
        ensures { result ≡ low_bound number }
    {
        Bound::at(number, Bound::Bottom, Bound::At(i32::MAX))
    }

    // Above 32 bits the top, below them the smallest number.
    pub(crate) fn high(number: i64) -> Bound
        ensures { result ≡ high_bound number }
    {
        Bound::at(number, Bound::At(i32::MIN), Bound::Top)
    }
}
