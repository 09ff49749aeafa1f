// The trees of a ledger: every point knows the root of its tree and the step from it.
ghost use Rattle.std.specs.Prelude.{◌<◌, ◌≤◌};
ghost use Rattle.ledger.specs.Trees.{Relabelled};
ghost use Rattle.ledger.specs.Ties.{tied};
ghost use Rattle.ledger.specs.Views.{contents};
ghost use Rattle.ledger.specs.Calls.{Tying};

use super::Ledger;
use crate::cells::Cell;
use crate::faults::Fault;
use steps::Step;

// Moves each point of the tree `from` to the root `to`, along `by`.
fn relabel<S: Step>(points: &mut [Cell<S>], from: usize, to: usize, by: &S)
    ensures { Relabelled S.kind S.meaning points.old points.new from to (S.meaning by.now) }
{
    for point in points.iter_mut() {
        point.move_from(from, to, by);
    }
}

impl<'a, S: Step> Ledger<'a, S> {
    // Ties points that are known to be there, by a step that is not too large.
    pub(super) fn join(&mut self, a: usize, b: usize, g: &S) -> Result<(), Fault>
        requires left { a < self.old.len }
        requires right { b < self.old.len }
        requires small { S.kind.size (S.meaning g.now) ≤ S.kind.most }
        ensures { Tying S.kind S.meaning (contents self.old) (tied S.kind a b (S.meaning g.now)) result (contents self.new) }
    {
        let points = &mut self.cells[..self.len];
        let (left, right) = (&points[a], &points[b]);
        let (from, to) = (left.root, right.root);
        if from == to {
            if left.is_by(right, g) {
                return Ok(());
            }
            return Err(Fault::Contradiction(a, b));
        }
        let by = left.bridge(right, g).unwrap();
        relabel(points, from, to, &by);
        Ok(())
    }
}
