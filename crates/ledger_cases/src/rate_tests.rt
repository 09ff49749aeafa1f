// Ledgers of rates, run: rings that close and rings that do not, and steps that are too large.
use super::three_conversions;
use ledger::{Cell, Fault, Ledger};
use rates::RateStep;
use std::alloc::Global;
use std::process::Abort;
use std::test::Fail;
use steps::Step;

// 64 times 2, which is larger than a tie may be.
fn large() -> Result<RateStep, Fail> {
    let step = RateStep::try_from(64)?.compose(&RateStep::try_from(2)?);
    step.ok_or_else(|| Fail::new("no step"))
}

fn three(f: &RateStep, g: &RateStep, h: &RateStep) -> Result<(), Fault> {
    let mut cells = [Cell::blank(), Cell::blank(), Cell::blank()];
    three_conversions(&mut cells, f, g, h)
}

#[test]
fn three_conversions_close_by_their_product(rt: HostRuntime) -> Result<(), Fail> {
    let six = RateStep::try_from(6)?;
    let ten = RateStep::try_from(10)?;
    let sixty = RateStep::try_from(60)?;
    assert_eq!(rt; three(&six, &ten, &sixty), Ok(()));
    assert_eq!(rt; three(&ten, &six, &sixty), Ok(()));
    assert_eq!(rt;
        three(&six, &ten, &RateStep::try_from(59)?),
        Err(Fault::Contradiction(2, 0))
    );
    assert_eq!(rt;
        three(
            &RateStep::try_from(61)?,
            &RateStep::try_from(1)?,
            &RateStep::try_from(1)?
        ),
        Err(Fault::Contradiction(2, 0))
    );
    // a rate below 1
    let Some(down) = six.compose(&ten.inverse()) else {
        return Err(Fail::new("no step"));
    };
    assert_eq!(rt;
        three(&down, &down.inverse(), &RateStep::try_from(1)?),
        Ok(())
    );
    assert_eq!(rt; three(&down, &ten, &six), Ok(()));
    assert_eq!(rt; three(&down, &ten, &ten), Err(Fault::Contradiction(2, 0)));
    Ok(())
}

#[test]
fn three_conversions_beyond_the_limits(rt: HostRuntime) -> Result<(), Fail> {
    let two = RateStep::try_from(2)?;
    let three_times = RateStep::try_from(3)?;
    let large = large()?;
    // a conversion that is too large is not kept, so that the ring stays open
    assert_eq!(rt; three(&two, &two, &large), Err(Fault::TooLarge(2, 0)));
    assert_eq!(rt; three(&large, &two, &three_times), Ok(()));
    assert_eq!(rt; three(&two, &large, &three_times), Ok(()));
    let mut cells = [Cell::blank(), Cell::blank()];
    assert_eq!(rt;
        three_conversions(&mut cells, &two, &two, &RateStep::try_from(4)?),
        Err(Fault::NoPoint(2, 0))
    );
    Ok(())
}

// What is answered to the last of forty conversions round a ring: twenty up by 3, nineteen down by 3, and one down.
fn forty(rt: &impl Abort, heap: Global, last: u32) -> Result<Result<(), Fault>, Fail> {
    let mut cells = Cell::blanks(heap, 40)?;
    let mut ledger = Ledger::make(&mut cells);
    for _ in 0..40 {
        ledger.point()?;
    }
    for signal in 0..20 {
        assert!(rt;
            ledger
                .tie(signal + 1, signal, &RateStep::try_from(3)?)
                .is_ok()
        );
    }
    for signal in 20..39 {
        assert!(rt;
            ledger
                .tie(signal, signal + 1, &RateStep::try_from(3)?)
                .is_ok()
        );
    }
    Ok(ledger.tie(39, 0, &RateStep::try_from(last)?))
}

#[test]
fn a_ring_of_forty_conversions_closes_by_its_product(rt: HostRuntime) -> Result<(), Fail> {
    assert_eq!(rt; forty(&rt, rt.alloc(), 3)?, Ok(()));
    assert_eq!(rt;
        forty(&rt, rt.alloc(), 2)?,
        Err(Fault::Contradiction(39, 0))
    );
    assert_eq!(rt;
        forty(&rt, rt.alloc(), 9)?,
        Err(Fault::Contradiction(39, 0))
    );
    Ok(())
}

#[test]
fn a_step_above_the_largest_size_is_refused(rt: HostRuntime) -> Result<(), Fail> {
    let mut cells = [Cell::blank(), Cell::blank()];
    let mut ledger = Ledger::make(&mut cells);
    ledger.point()?;
    ledger.point()?;
    let large = large()?;
    assert_eq!(rt; ledger.tie(1, 0, &large), Err(Fault::TooLarge(1, 0)));
    assert_eq!(rt;
        ledger.tie(1, 0, &large.inverse()),
        Err(Fault::TooLarge(1, 0))
    );
    // points are looked at first
    assert_eq!(rt; ledger.tie(1, 2, &large), Err(Fault::NoPoint(1, 2)));
    assert_eq!(rt; ledger.tie(1, 0, &RateStep::try_from(64)?), Ok(()));
    Ok(())
}
