// A ledger of points that are tied by steps, for any kind of step.
#![tactic(auto)]

mod cells;
mod faults;
mod lent;

pub use cells::Cell;
pub use faults::Fault;
pub use lent::Ledger;
