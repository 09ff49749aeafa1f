// Cells, the memory of a ledger: a point hangs by one step on the root of its tree.
ghost use Rattle.std.specs.Prelude.{◌≡◌, ◌+◌, ◌≤◌, IfOk, vec_len, All};
ghost use Rattle.steps.specs.Kind.{Composed, Decides, limit};
ghost use Rattle.ledger.specs.Trees.{Blank, CellMoved};

use std::alloc::{AllocError, Global};
use steps::Step;

#[derive(Drop)]
pub struct Cell<S> {
    pub(crate) root: usize,
    pub(crate) step: S,
}

impl<S: Step> Cell<S> {
    // A cell to lend to a ledger, which overwrites it.
    pub fn blank() -> Cell<S>
        ensures { Blank S.kind S.meaning result }
    {
        Cell {
            root: 0,
            step: S::unit(),
        }
    }

    // So many cells to lend to a ledger.
    pub fn blanks(heap: Global, count: usize) -> Result<Vec<Cell<S>>, AllocError>
        ensures many { IfOk result (λ cells. vec_len cells ≡ count) }
        ensures blank { IfOk result (λ cells. All (Blank S.kind S.meaning) cells.items) }
    {
        (0..count).map(|_| Cell::blank()).collect(heap)
    }

    // Moves the point to the root `to` along `by`, if it hangs on `from` and its step is not too large for that.
    pub(crate) fn move_from(&mut self, from: usize, to: usize, by: &S)
        ensures { CellMoved S.kind S.meaning self.old self.new from to (S.meaning by.now) }
    {
        if self.root == from {
            if let Some(step) = self.step.compose(by) {
                *self = Cell { root: to, step };
            }
        }
    }

    // The step to this point from another of its tree; none where it would be too large.
    pub(crate) fn way_from(&self, other: &Cell<S>) -> Option<S>
        ensures { Composed S.kind S.meaning (S.meaning self.now.step) (S.kind.inv (S.meaning other.now.step)) result }
    {
        self.step.compose(&other.step.inverse())
    }

    // Whether g is the step to this point from another of its tree.
    #[tactic(auto, using(crate::proofs::Ways::compared))]
    pub(crate) fn is_by(&self, other: &Cell<S>, g: &S) -> bool
        ensures { S.kind.size (S.meaning g.now) + S.kind.size (S.meaning other.now.step) ≤ limit → Decides result (S.kind.same (S.meaning self.now.step) (S.kind.mul (S.meaning g.now) (S.meaning other.now.step))) }
    {
        g.compose(&other.step)
            .is_some_and(|step| self.step.equals(&step))
    }

    // The step between the roots of two trees that a tie of this point to the other by g asks for; none where it would be too large.
    #[tactic(auto, using(crate::proofs::Ways::composed_same))]
    pub(crate) fn bridge(&self, other: &Cell<S>, g: &S) -> Option<S>
        ensures { S.kind.size (S.meaning g.now) + S.kind.size (S.meaning other.now.step) ≤ limit → Composed S.kind S.meaning (S.kind.inv (S.meaning self.now.step)) (S.kind.mul (S.meaning g.now) (S.meaning other.now.step)) result }
    {
        let there = g.compose(&other.step)?;
        self.step.inverse().compose(&there)
    }
}
