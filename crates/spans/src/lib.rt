// Spans: from a low to a high bound, of whole numbers or of floats, and how operations combine them.
#![tactic(auto)]

mod bound;
mod kind;
mod operation;
mod real;
mod row;
mod span;
mod whole;

pub use bound::Bound;
pub use kind::Kind;
pub use operation::Operation;
pub use real::RealSpan;
pub use row::{NoSpan, SpanRow};
pub use span::Span;
pub use whole::WholeSpan;
