// Kinds of step: the trait that every kind implements, and the kind of phases.
#![tactic(auto)]

mod kind;
mod phases;

pub use kind::{SIZE_LIMIT, Step};
pub use phases::Phase;
