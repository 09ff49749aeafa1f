// The calls of a ledger.
ghost use Rattle.ledger.specs.declared.faults.Fault.TheVariants.{NoPoint};
ghost use Rattle.ledger.specs.Ties.{tied};
ghost use Rattle.ledger.specs.Views.{contents};
ghost use Rattle.std.specs.Prelude.{◌≡◌, ◌≢◌, true, Ok, MatchResult};
ghost use Rattle.ledger.specs.Calls.{Both, Made, Pointed, Tying, Asking, told};
ghost use Rattle.ledger.specs.Runs.{Law};

use super::Ledger;
use crate::cells::Cell;
use crate::faults::Fault;
use steps::Step;

const MOST_POINTS: usize = 512;

impl<'a, S: Step> Ledger<'a, S> {
    // A ledger with no points, over the cells: one for each point that it may have, up to 512.
    pub fn make(cells: &'a mut [Cell<S>]) -> Ledger<'a, S>
        ensures starts { Made S.kind S.meaning cells.old (contents result) }
        ensures law { Law S.kind S.meaning (contents result) }
    {
        Ledger { cells, len: 0 }
    }

    // Adds a point, and answers its number.
    #[tactic(auto, using(crate::proofs::Unused::some_same, crate::proofs::Answering::some_point, crate::proofs::Answering::pointed_ok))]
    pub fn point(&mut self) -> Result<usize, Fault>
        ensures { Pointed S.kind S.meaning (contents self.old) result (contents self.new) }
    {
        let n = self.len;
        if n < self.cells.len() && n < MOST_POINTS {
            self.cells[n] = Cell {
                root: n,
                step: S::unit(),
            };
            self.len = n + 1;
            Ok(n)
        } else {
            Err(Fault::Full)
        }
    }

    // Refuses unless both are points. (Two points are two numbers in every call: a pair would be built and taken apart at once.)
    fn both_are_points(&self, a: usize, b: usize) -> Result<(), Fault>
        ensures { MatchResult result (λ _. Both self.now.len a b) (λ e. (e ≡ NoPoint a b) × (Both self.now.len a b → ⊥)) }
    {
        if a >= self.len || b >= self.len {
            return Err(Fault::NoPoint(a, b));
        }
        Ok(())
    }

    // States that the value at a is g times the value at b.
    pub fn tie(&mut self, a: usize, b: usize, g: &S) -> Result<(), Fault>
        ensures { Tying S.kind S.meaning (contents self.old) (tied S.kind a b (S.meaning g.now)) result (contents self.new) }
    {
        self.both_are_points(a, b)?;
        if g.size() > S::largest() {
            return Err(Fault::TooLarge(a, b));
        }
        self.join(a, b, g)
    }

    // The step that ties a to b, where a chain of ties joins them.
    pub fn between(&self, a: usize, b: usize) -> Result<Option<S>, Fault>
        ensures { Asking S.kind S.meaning (contents self.now) a b result (contents self.now) }
    {
        self.both_are_points(a, b)?;
        let points = &*self.cells;
        let (left, right) = (&points[a], &points[b]);
        if left.root != right.root {
            return Ok(None);
        }
        Ok(Some(left.way_from(right).unwrap()))
    }

    // Whether a chain of ties joins a and b; then `out` is filled with the step that ties a to b.
    // It is `between` for a place that is given: callers were promised this form, so it stays.
    pub fn ask(&self, a: usize, b: usize, out: &mut S) -> Result<bool, Fault>
        ensures asked { Asking S.kind S.meaning (contents self.now) a b (told result out.new) (contents self.now) }
        ensures left { result ≢ Ok true → out.new ≡ out.old }
    {
        match self.between(a, b)? {
            Some(step) => {
                *out = step;
                Ok(true)
            }
            None => Ok(false),
        }
    }
}
