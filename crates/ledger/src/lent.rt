// The ledger: trees of the points that chains of ties join, in cells that the caller lends.
ghost use Rattle.std.specs.Prelude.{◌≤◌, length};
ghost use Rattle.ledger.specs.Limits.{most_points};
ghost use Rattle.ledger.specs.Tells.{holding, TellsSome};

use crate::cells::Cell;
use steps::Step;

mod calls;
mod trees;

#[derive(Drop)]
pub struct Ledger<'a, S: Step> {
    // lent memory, which cannot grow: so the number of points stands beside it, and a tree is linked by numbers
    cells: &'a mut [Cell<S>],
    // how many points there are: the first cells hold them
    len: usize,
    ghost room: { len ≤ length cells.now },
    ghost few: { len ≤ most_points },
    ghost tells: { ∥ TellsSome S.kind S.meaning (holding cells.now len) ∥₁ },
}
