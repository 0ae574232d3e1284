// The answers as C has them, a repr(C) struct for each kind of call, and each call's `Result` flattened to its own. What refuses a call is flattened
// by `refused`, whatever its number.
#![tactic(auto)]

ghost use Rattle.std.specs.Prelude.{◌≡◌};
ghost use Rattle.tablet_answers.specs.Flat.{as_check, as_answer, as_multiple, as_total, as_repeat, as_pole};

use call_batch::places::Repeat;
use call_multiply::Multiplied;
use call_pole::PoleRead;
use call_total::Totalled;
use refusals::Refused;

#[repr(C)]
#[derive(Clone, Copy, Debug, PartialEq, Eq)]
pub struct YubiAnswer {
    pub number: u64,
    pub place: u64,
    pub length: u64,
}

#[repr(C)]
#[derive(Clone, Copy, Debug, PartialEq, Eq)]
pub struct YubiMultiple {
    pub number: u64,
    pub place: u64,
    pub length: u64,
    pub doublings: u64,
    pub additions: u64,
}

#[repr(C)]
#[derive(Clone, Copy, Debug, PartialEq, Eq)]
pub struct YubiTotal {
    pub number: u64,
    pub place: u64,
    pub length: u64,
    pub count: u64,
}

#[repr(C)]
#[derive(Clone, Copy, Debug, PartialEq, Eq)]
pub struct YubiRepeat {
    pub number: u64,
    pub place: u64,
    pub length: u64,
    pub first: u64,
    pub second: u64,
}

#[repr(C)]
#[derive(Clone, Copy, Debug, PartialEq, Eq)]
pub struct YubiPole {
    pub number: u64,
    pub place: u64,
    pub length: u64,
    pub pole: u32,
}

impl YubiAnswer {
    fn written(length: u64) -> YubiAnswer
        ensures { result ≡ record { number = 0; place = 0; length = length } }
    {
        YubiAnswer {
            number: 0,
            place: 0,
            length,
        }
    }

    pub fn refused(number: u64, place: u64) -> YubiAnswer
        ensures { result ≡ record { number = number; place = place; length = 0 } }
    {
        YubiAnswer {
            number,
            place,
            ..YubiAnswer::written(0)
        }
    }
}

impl YubiMultiple {
    pub fn refused(number: u64, place: u64) -> YubiMultiple
        ensures { result ≡ record { number = number; place = place; length = 0; doublings = 0; additions = 0 } }
    {
        YubiMultiple {
            number,
            place,
            length: 0,
            doublings: 0,
            additions: 0,
        }
    }
}

impl YubiTotal {
    pub fn refused(number: u64, place: u64) -> YubiTotal
        ensures { result ≡ record { number = number; place = place; length = 0; count = 0 } }
    {
        YubiTotal {
            number,
            place,
            length: 0,
            count: 0,
        }
    }
}

impl YubiRepeat {
    // Both places are 0 where nothing is repeated.
    pub fn found(first: u64, second: u64) -> YubiRepeat
        ensures { result ≡ record { number = 0; place = 0; length = 0; first = first; second = second } }
    {
        YubiRepeat {
            number: 0,
            place: 0,
            length: 0,
            first,
            second,
        }
    }

    pub fn refused(number: u64, place: u64) -> YubiRepeat
        ensures { result ≡ record { number = number; place = place; length = 0; first = 0; second = 0 } }
    {
        YubiRepeat {
            number,
            place,
            ..YubiRepeat::found(0, 0)
        }
    }
}

impl YubiPole {
    pub fn refused(number: u64, place: u64) -> YubiPole
        ensures { result ≡ record { number = number; place = place; length = 0; pole = 0 } }
    {
        YubiPole {
            number,
            place,
            length: 0,
            pole: 0,
        }
    }
}

// A check writes nothing.
impl From<Result<(), Refused>> for YubiAnswer {
    ghost from_gives = { λ r a. a ≡ as_check r };

    fn from(r: Result<(), Refused>) -> YubiAnswer {
        match r {
            Ok(()) => YubiAnswer::written(0),
            Err(e) => YubiAnswer::refused(e.by.into(), e.place),
        }
    }
}

impl From<Result<u64, Refused>> for YubiAnswer {
    ghost from_gives = { λ r a. a ≡ as_answer r };

    fn from(r: Result<u64, Refused>) -> YubiAnswer {
        match r {
            Ok(length) => YubiAnswer::written(length),
            Err(e) => YubiAnswer::refused(e.by.into(), e.place),
        }
    }
}

impl From<Result<Multiplied, Refused>> for YubiMultiple {
    ghost from_gives = { λ r a. a ≡ as_multiple r };

    fn from(r: Result<Multiplied, Refused>) -> YubiMultiple {
        match r {
            Ok(t) => YubiMultiple {
                number: 0,
                place: 0,
                length: t.length,
                doublings: t.doublings,
                additions: t.additions,
            },
            Err(e) => YubiMultiple::refused(e.by.into(), e.place),
        }
    }
}

impl From<Result<Totalled, Refused>> for YubiTotal {
    ghost from_gives = { λ r a. a ≡ as_total r };

    fn from(r: Result<Totalled, Refused>) -> YubiTotal {
        match r {
            Ok(t) => YubiTotal {
                number: 0,
                place: 0,
                length: t.length,
                count: t.count,
            },
            Err(e) => YubiTotal::refused(e.by.into(), e.place),
        }
    }
}

// Nothing is written.
impl From<Result<Option<Repeat>, Refused>> for YubiRepeat {
    ghost from_gives = { λ r a. a ≡ as_repeat r };

    fn from(r: Result<Option<Repeat>, Refused>) -> YubiRepeat {
        match r {
            Ok(Some(x)) => YubiRepeat::found(x.first, x.second),
            Ok(None) => YubiRepeat::found(0, 0),
            Err(e) => YubiRepeat::refused(e.by.into(), e.place),
        }
    }
}

impl From<Result<PoleRead, Refused>> for YubiPole {
    ghost from_gives = { λ r a. a ≡ as_pole r };

    fn from(r: Result<PoleRead, Refused>) -> YubiPole {
        match r {
            Ok(t) => YubiPole {
                number: 0,
                place: 0,
                length: t.length,
                pole: t.pole,
            },
            Err(e) => YubiPole::refused(e.by.into(), e.place),
        }
    }
}
