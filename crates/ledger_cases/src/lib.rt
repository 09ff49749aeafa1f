// What callers of a ledger may count on, shown from the contracts alone: two examples, of readings and of conversions, each with its theorem.
#![tactic(auto)]

ghost use Rattle.std.specs.Prelude.{◌≡◌, ◌<◌, ◌≤◌, length, Err};
ghost use Rattle.ledger.specs.declared.faults.Fault.TheVariants.{NoPoint, Contradiction};
ghost use Rattle.ledger_cases.specs.Rings.{LastOfThree};
ghost use Rattle.rates.specs.Rates.{worth};

use ledger::{Cell, Fault, Ledger};
use rates::RateStep;
use steps::Phase;

// Of three readings round a triangle, one the opposite of what the others say, the last is refused:
// as a contradiction, or for want of a third point where there are fewer than three cells.
pub fn three_readings(cells: &mut [Cell<Phase>]) -> Result<(), Fault>
    ensures roomy { 3 ≤ length cells.old → result ≡ Err (Contradiction 0 2) }
    ensures short { length cells.old < 3 → result ≡ Err (NoPoint 0 2) }
{
    let mut ledger = Ledger::make(cells);
    let _ = ledger.point();
    let _ = ledger.point();
    let _ = ledger.point();
    let _ = ledger.tie(0, 1, &Phase::Same);
    let _ = ledger.tie(1, 2, &Phase::Opposite);
    ledger.tie(0, 2, &Phase::Same)
}

// Of three conversions, 1 runs at f times 0, 2 at g times 1, and 2 at h times 0, the last is accepted exactly when
// h is g times f, where there is room and no step is too large.
pub fn three_conversions(
    cells: &mut [Cell<RateStep>],
    f: &RateStep,
    g: &RateStep,
    h: &RateStep,
) -> Result<(), Fault>
    ensures { LastOfThree (length cells.old) (worth f.now) (worth g.now) (worth h.now) result }
{
    let mut ledger = Ledger::make(cells);
    let _ = ledger.point();
    let _ = ledger.point();
    let _ = ledger.point();
    let _ = ledger.tie(1, 0, f);
    let _ = ledger.tie(2, 1, g);
    ledger.tie(2, 0, h)
}

#[cfg(test)]
mod rate_tests;
#[cfg(test)]
mod tests;
