// Ledgers of phases, run: limits, refusals and answers.
use super::three_readings;
use ledger::{Cell, Fault, Ledger};
use std::alloc::{AllocError, Global};
use std::test::Fail;
use steps::Phase;

// How many points a ledger over so many cells takes before it is full.
fn most_points(heap: Global, cells: usize) -> Result<usize, AllocError> {
    let mut memory = Cell::<Phase>::blanks(heap, cells)?;
    let mut ledger = Ledger::make(&mut memory);
    for n in 0..1000 {
        if ledger.point().is_err() {
            return Ok(n);
        }
    }
    Ok(1000)
}

#[test]
fn last_of_three_is_refused(rt: HostRuntime) {
    let mut cells = [Cell::blank(), Cell::blank(), Cell::blank()];
    assert_eq!(rt; three_readings(&mut cells), Err(Fault::Contradiction(0, 2)));
}

#[test]
fn no_third_point_in_two_cells(rt: HostRuntime) {
    let mut cells = [Cell::blank(), Cell::blank()];
    assert_eq!(rt; three_readings(&mut cells), Err(Fault::NoPoint(0, 2)));
}

#[test]
fn faults_have_numbers_and_points(rt: HostRuntime) {
    let told = |fault: Fault| (fault.number(), fault.points());
    assert_eq!(rt; told(Fault::Full), (4, (0, 0)));
    assert_eq!(rt; told(Fault::NoPoint(0, 4)), (5, (0, 4)));
    assert_eq!(rt; told(Fault::TooLarge(2, 0)), (7, (2, 0)));
    assert_eq!(rt; told(Fault::Contradiction(39, 0)), (11, (39, 0)));
}

#[test]
fn full_at_the_memory_or_512(rt: HostRuntime) -> Result<(), Fail> {
    assert_eq!(rt; most_points(rt.alloc(), 0)?, 0);
    assert_eq!(rt; most_points(rt.alloc(), 7)?, 7);
    assert_eq!(rt; most_points(rt.alloc(), 511)?, 511);
    assert_eq!(rt; most_points(rt.alloc(), 512)?, 512);
    assert_eq!(rt; most_points(rt.alloc(), 600)?, 512);
    Ok(())
}

#[test]
fn blank_cells_are_as_many_as_asked(rt: HostRuntime) -> Result<(), Fail> {
    assert_eq!(rt; Cell::<Phase>::blanks(rt.alloc(), 0)?.len(), 0);
    assert_eq!(rt; Cell::<Phase>::blanks(rt.alloc(), 40)?.len(), 40);
    Ok(())
}

#[test]
fn points_are_numbered_in_turn(rt: HostRuntime) {
    let mut cells = [Cell::blank(), Cell::blank()];
    let mut ledger: Ledger<Phase> = Ledger::make(&mut cells);
    for expected in 0..2 {
        assert_eq!(rt; ledger.point(), Ok(expected));
    }
    assert_eq!(rt; ledger.point(), Err(Fault::Full));
}

// What is asked, as the answer and what then is in the place.
fn asked(ledger: &Ledger<Phase>, a: usize, b: usize, place: Phase) -> (Result<bool, Fault>, Phase) {
    let mut out = place;
    (ledger.ask(a, b, &mut out), out)
}

#[test]
fn chains_answer_for_their_ends(rt: HostRuntime) -> Result<(), Fail> {
    let mut cells = [Cell::blank(), Cell::blank(), Cell::blank(), Cell::blank()];
    let mut ledger = Ledger::make(&mut cells);
    for _ in 0..4 {
        ledger.point()?;
    }
    assert_eq!(rt; ledger.tie(0, 1, &Phase::Opposite), Ok(()));
    assert_eq!(rt; ledger.tie(2, 1, &Phase::Opposite), Ok(()));
    assert_eq!(rt;
        asked(&ledger, 0, 2, Phase::Opposite),
        (Ok(true), Phase::Same)
    );
    assert_eq!(rt;
        asked(&ledger, 1, 2, Phase::Same),
        (Ok(true), Phase::Opposite)
    );
    assert_eq!(rt;
        asked(&ledger, 3, 3, Phase::Opposite),
        (Ok(true), Phase::Same)
    );
    assert_eq!(rt;
        asked(&ledger, 0, 3, Phase::Opposite),
        (Ok(false), Phase::Opposite)
    );
    let outside = Err(Fault::NoPoint(0, 4));
    assert_eq!(rt;
        asked(&ledger, 0, 4, Phase::Opposite),
        (outside, Phase::Opposite)
    );
    assert_eq!(rt;
        ledger.tie(2, 0, &Phase::Opposite),
        Err(Fault::Contradiction(2, 0))
    );
    assert_eq!(rt; ledger.tie(4, 0, &Phase::Same), Err(Fault::NoPoint(4, 0)));
    assert_eq!(rt;
        asked(&ledger, 0, 2, Phase::Opposite),
        (Ok(true), Phase::Same)
    );
    assert_eq!(rt; ledger.tie(2, 0, &Phase::Same), Ok(()));
    Ok(())
}

#[test]
fn the_step_between_two_points(rt: HostRuntime) -> Result<(), Fail> {
    let mut cells = [Cell::blank(), Cell::blank(), Cell::blank()];
    let mut ledger = Ledger::make(&mut cells);
    for _ in 0..3 {
        ledger.point()?;
    }
    ledger.tie(0, 1, &Phase::Opposite)?;
    assert_eq!(rt; ledger.between(0, 1), Ok(Some(Phase::Opposite)));
    assert_eq!(rt; ledger.between(1, 1), Ok(Some(Phase::Same)));
    assert_eq!(rt; ledger.between(0, 2), Ok(None));
    assert_eq!(rt; ledger.between(3, 0), Err(Fault::NoPoint(3, 0)));
    Ok(())
}
