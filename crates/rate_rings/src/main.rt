// Enters rate conversions between the signals of a rack, and prints what came of each, and then the rates of the signals.
#![tactic(auto)]

ghost use Rattle.std.specs.Prelude.{◌≡◌};
ghost use Rattle.ledger.specs.Views.{contents};
ghost use Rattle.entries.specs.Standings.{Against};
ghost use Rattle.rates.specs.Rates.{rates, worth};
ghost use Rattle.rate_rings.specs.Conversions.{Converted, Entering};

use anyhow::Context;
use entries::{Entry, Standing, against, name};
use ledger::{Cell, Fault, Ledger};
use rates::{NotAFactor, Overflow, RateStep};
use std::alloc::{AllocError, Global};
use std::io;
use steps::Step;

const SIGNALS: [&str; 8] = [
    "stage box",
    "converter",
    "mixer",
    "reverb",
    "recorder",
    "delay",
    "echo",
    "talkback",
];

// The rate of a signal is up / down times that of another; signals go by their places in `SIGNALS`.
#[derive(Clone, Copy, Debug, PartialEq, Eq)]
struct Conversion {
    signal: usize,
    of: usize,
    up: u32,
    down: u32,
}

impl Conversion {
    fn new(signal: usize, of: usize, up: u32, down: u32) -> Conversion
        ensures { result ≡ record { signal = signal; of = of; up = up; down = down } }
    {
        Conversion {
            signal,
            of,
            up,
            down,
        }
    }

    // The step of up / down, where both are factors.
    #[tactic(auto, using(crate::proofs::Converting::composes))]
    fn step(&self) -> Result<RateStep, NotAFactor>
        ensures { Converted self.now result }
    {
        let up = RateStep::try_from(self.up)?;
        let down = RateStep::try_from(self.down)?;
        // steps of factors are small, and always compose
        Ok(up.compose(&down.inverse()).unwrap())
    }
}

// A ring of five conversions that closes, and one of four that does not, until its last conversion is put right.
fn conversions() -> [Conversion; 9] {
    [
        Conversion::new(1, 0, 2, 1),
        Conversion::new(2, 1, 1, 3),
        Conversion::new(3, 2, 9, 1),
        Conversion::new(4, 3, 1, 6),
        Conversion::new(4, 0, 1, 1),
        Conversion::new(5, 0, 5, 1),
        Conversion::new(6, 5, 1, 4),
        Conversion::new(6, 4, 1, 1),
        Conversion::new(6, 4, 5, 4),
    ]
}

// Enters a conversion; nothing comes of one whose numbers are no factors.
fn enter(
    ledger: &mut Ledger<RateStep>,
    conversion: Conversion,
) -> Result<Result<Entry, Fault>, NotAFactor>
    ensures { Entering (contents ledger.old) conversion result (contents ledger.new) }
{
    let step = conversion.step()?;
    Ok(entries::enter(ledger, conversion.signal, conversion.of, &step))
}

// A line of the program's own, of what prints itself.
fn print_conversion(
    rt: &impl Print,
    conversion: Conversion,
    outcome: Result<Entry, Fault>,
) -> io::Result<()> {
    let Conversion { up, down, .. } = conversion;
    let signal = name(&SIGNALS, conversion.signal);
    let of = name(&SIGNALS, conversion.of);
    match outcome {
        Ok(Entry::Noted) => println!(rt; "{signal} at {up}/{down} of {of}: noted"),
        Ok(Entry::Known) => println!(rt; "{signal} at {up}/{down} of {of}: closes a ring"),
        Err(fault) => println!(rt; "{signal} at {up}/{down} of {of}: {fault}"),
    }
}

// The rate of a signal against the first, where conversions join them.
fn rate(ledger: &Ledger<RateStep>, signal: usize) -> Option<RateStep>
    ensures { Against rates worth (contents ledger.now) signal 0 result }
{
    against(ledger, signal, 0)
}

fn print_rates(rt: &impl Print, ledger: &Ledger<RateStep>) -> io::Result<()> {
    println!(rt; "rates against the stage box:")?;
    for (signal, name) in SIGNALS.iter().enumerate() {
        let rate = Standing(rate(ledger, signal));
        println!(rt; "{signal} {name}: {rate}")?;
    }
    Ok(())
}

// The known rates against the first signal.
fn known_rates(heap: Global, ledger: &Ledger<RateStep>) -> Result<Vec<RateStep>, AllocError> {
    (0..SIGNALS.len())
        .filter_map(|signal| rate(ledger, signal))
        .collect(heap)
}

fn print_least_rates(
    rt: &impl Print,
    ledger: &Ledger<RateStep>,
    factor: RateStep,
) -> io::Result<()> {
    println!(rt; "least natural rates:")?;
    for (signal, name) in SIGNALS.iter().enumerate() {
        if let Some(rate) = rate(ledger, signal) {
            match factor.compose(&rate) {
                Some(product) => println!(rt; "{signal} {name}: {product}")?,
                None => println!(rt; "{signal} {name}: {Overflow}")?,
            }
        }
    }
    Ok(())
}

// What this shares with the other program is one call each: the ledger's, and those of `entries`.
fn main(rt: HostRuntime) -> anyhow::Result<()> {
    let mut cells = Cell::blanks(rt.alloc(), SIGNALS.len())?;
    let mut ledger = Ledger::make(&mut cells);
    for _ in SIGNALS {
        ledger.point().context("no room for another signal")?;
    }
    for conversion in conversions() {
        let outcome = enter(&mut ledger, conversion).context("a conversion by what is no factor")?;
        print_conversion(&rt, conversion, outcome)?;
    }
    print_rates(&rt, &ledger)?;
    let rates = known_rates(rt.alloc(), &ledger)?;
    if let Some(factor) = RateStep::least_factor(&rates) {
        print_least_rates(&rt, &ledger, factor)?;
    }
    Ok(())
}
