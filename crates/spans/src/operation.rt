// The operations that combine two samples.
#[derive(Clone, Copy, Debug, PartialEq, Eq, Hash)]
pub enum Operation {
    Sum,
    Difference,
    Product,
    Quotient,
    Minimum,
    Maximum,
}
