// Entering statements in a ledger, each of which is noted, known already or refused, and how points then stand.
#![tactic(auto)]

mod names;
mod standings;
mod statements;

pub use names::name;
pub use standings::{Standing, against};
pub use statements::{Entry, enter};
