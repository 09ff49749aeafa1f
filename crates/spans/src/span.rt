// A span of either kind.
use crate::real::RealSpan;
use crate::whole::WholeSpan;

#[derive(Clone, Copy, Debug, PartialEq)]
pub enum Span {
    Whole(WholeSpan),
    Real(RealSpan),
}
