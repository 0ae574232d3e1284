// What refuses, in the paper's order, with its number; and the limits: the one place where code has them.
#![tactic(auto)]

ghost use Rattle.std.specs.Prelude.{◌≡◌};
ghost use Rattle.refusals.specs.Refusal.{number_of};

#[derive(Clone, Copy, Debug, PartialEq, Eq)]
pub enum Refusal {
    CurveLength = 1,
    Mark = 2,
    Version = 3,
    Genus = 4,
    Prime = 5,
    CurveCoefficient = 6,
    RepeatedFactor = 7,
    DivisorLength = 8,
    Weight = 9,
    DivisorCoefficient = 10,
    NotOnCurve = 11,
    ScalarLength = 12,
    OutputLength = 13,
    Full = 14,
    RunningTotal = 15,
    FileLength = 16,
    Unreadable = 17,
    Witness = 18,
    EmptyKey = 19,
    OtherPole = 20,
    PoleFileMark = 21,
    PoleFileVersion = 22,
    PoleFileLength = 23,
    Last = 24,
    NotForTraining = 25,
    NoRoot = 26,
    Order = 27,
}

// A refusal, and the place of the record that is refused: 0 where that is the curve, the output or none.
#[derive(Clone, Copy, Debug, PartialEq, Eq)]
pub struct Refused {
    pub by: Refusal,
    pub place: u64,
}

impl Refusal {
    pub fn at(self, place: u64) -> Refused
        ensures { result ≡ record { by = self; place = place } }
    {
        Refused { by: self, place }
    }
}

impl From<Refusal> for u64 {
    ghost from_gives = { λ by n. n ≡ number_of by };

    fn from(by: Refusal) -> u64 {
        by as u64
    }
}

// What is refused at no place of its own.
impl From<Refusal> for Refused {
    ghost from_gives = { λ by r. r ≡ record { by = by; place = 0 } };

    fn from(by: Refusal) -> Refused {
        by.at(0)
    }
}

// The most records of a batch or of a running total, as a length and as a count.
pub const MOST: usize = 4096;

pub const MOST_COUNT: u64 = 4096;

// The most bytes of a scalar or of an order.
pub const MOST_SCALAR: usize = 32;

// The most primes of a witness; the most bytes of an order's list, 32 primes of four.
pub const MOST_WITNESS: usize = 15;

pub const MOST_LISTED: usize = 128;

// The largest p of a training curve.
pub const LARGEST_TRAINING: u64 = 13;

// The longest file.
pub const MOST_BYTES: usize = 65536;
