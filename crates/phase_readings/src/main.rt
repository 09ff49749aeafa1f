// Enters phase readings between the outputs of a rig, and prints what came of each and how every output stands to the first.
#![tactic(auto)]

ghost use Rattle.std.specs.Prelude.{◌≡◌};
ghost use Rattle.ledger.specs.Views.{contents};
ghost use Rattle.entries.specs.Outcomes.{Entered};
ghost use Rattle.phase_readings.specs.Readings.{stated};
ghost use Rattle.steps.specs.Phases.{phases, flips};

use anyhow::Context;
use entries::{Entry, Standing, against, name};
use ledger::{Cell, Fault, Ledger};
use std::io;
use steps::Phase;

const OUTPUTS: [&str; 8] = [
    "main left",
    "main right",
    "sub left",
    "sub right",
    "front fill",
    "balcony",
    "delay left",
    "delay right",
];

// What a tester read between two outputs, which go by their places in `OUTPUTS`.
#[derive(Clone, Copy, Debug, PartialEq, Eq)]
struct Reading {
    output: usize,
    against: usize,
    phase: Phase,
}

impl Reading {
    fn new(output: usize, against: usize, phase: Phase) -> Reading
        ensures { result ≡ record { output = output; against = against; phase = phase } }
    {
        Reading {
            output,
            against,
            phase,
        }
    }
}

// The readings of one walk through the hall.
fn readings() -> [Reading; 10] {
    [
        Reading::new(1, 0, Phase::Same),
        Reading::new(2, 0, Phase::Opposite),
        Reading::new(3, 2, Phase::Same),
        Reading::new(3, 1, Phase::Opposite),
        Reading::new(5, 4, Phase::Opposite),
        Reading::new(6, 5, Phase::Opposite),
        Reading::new(4, 1, Phase::Same),
        Reading::new(3, 6, Phase::Same),
        Reading::new(6, 0, Phase::Same),
        Reading::new(2, 5, Phase::Same),
    ]
}

// Enters a reading, which is known where earlier ones say the same.
fn enter(ledger: &mut Ledger<Phase>, reading: Reading) -> Result<Entry, Fault>
    ensures { Entered phases flips (contents ledger.old) (stated reading) result (contents ledger.new) }
{
    entries::enter(ledger, reading.output, reading.against, &reading.phase)
}

// A line of the program's own, of what prints itself.
fn print_reading(
    rt: &impl Print,
    reading: Reading,
    outcome: Result<Entry, Fault>,
) -> io::Result<()> {
    let output = name(&OUTPUTS, reading.output);
    let against = name(&OUTPUTS, reading.against);
    let phase = reading.phase;
    match outcome {
        Ok(Entry::Noted) => println!(rt; "{output} to {against}: {phase}, noted"),
        Ok(Entry::Known) => println!(rt; "{output} to {against}: {phase}, known already"),
        Err(fault) => println!(rt; "{output} to {against}: {phase}, {fault}"),
    }
}

// What this shares with the other program is one call each: the ledger's, and those of `entries`.
fn main(rt: HostRuntime) -> anyhow::Result<()> {
    let mut cells = Cell::blanks(rt.alloc(), OUTPUTS.len())?;
    let mut ledger = Ledger::make(&mut cells);
    for _ in OUTPUTS {
        ledger.point().context("no room for another output")?;
    }
    for reading in readings() {
        let outcome = enter(&mut ledger, reading);
        print_reading(&rt, reading, outcome)?;
    }
    let first = name(&OUTPUTS, 0);
    println!(rt; "against {first}:")?;
    for (output, name) in OUTPUTS.iter().enumerate() {
        let standing = Standing(against(&ledger, output, 0));
        println!(rt; "{output} {name}: {standing}")?;
    }
    Ok(())
}
