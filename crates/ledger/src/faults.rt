// Why a ledger refuses a call.
ghost use Rattle.std.specs.Prelude.{◌≡◌, Some};
ghost use Rattle.ledger.specs.Faults.{refusal, refusal_text};

use std::error::Error;
use std::fmt;

#[derive(Clone, Copy, Debug, PartialEq, Eq, Hash)]
pub enum Fault {
    // the memory is used up, or there are 512 points
    Full,
    // one of the two is no point
    NoPoint(usize, usize),
    // the step is larger than its kind allows a single tie
    TooLarge(usize, usize),
    // the tie contradicts earlier ones
    Contradiction(usize, usize),
}

impl Fault {
    // The number belongs to the formats: refusals are told by it outside of the program.
    pub fn number(self) -> u8
        ensures { result ≡ (refusal self).number }
    {
        match self {
            Fault::Full => 4,
            Fault::NoPoint(..) => 5,
            Fault::TooLarge(..) => 7,
            Fault::Contradiction(..) => 11,
        }
    }

    // The two points that the refused call was given; zeros for `Full`, as the formats have it.
    pub fn points(self) -> (usize, usize)
        ensures { result ≡ ((refusal self).first, (refusal self).second) }
    {
        match self {
            Fault::Full => (0, 0),
            Fault::NoPoint(a, b) => (a, b),
            Fault::TooLarge(a, b) => (a, b),
            Fault::Contradiction(a, b) => (a, b),
        }
    }
}

impl fmt::Display for Fault {
    ghost output = { λ fault. Some (refusal_text fault) };

    fn fmt<W: fmt::Write>(&self, f: &mut fmt::Formatter<W>) -> fmt::Result {
        let number = self.number();
        let (a, b) = self.points();
        write!(f, "refused {number} at {a} and {b}")
    }
}

impl Error for Fault {}
