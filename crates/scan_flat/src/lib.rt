// The running total as C holds it: a weight, six numbers, a count and a pole, any of them anything. A flattened total has weight 0 to 3, and 0 for
// what is unused.
#![tactic(auto)]

ghost use Rattle.std.specs.Prelude.{◌≡◌};
ghost use Rattle.field.specs.Primes.{Decides};
ghost use Rattle.scan_total.specs.resume.Resumes.{total_of};
ghost use Rattle.scan_flat.specs.Flats.{flat_running, Flattened, Cut};

use divisor::{Cubic, Divisor, Linear, Quadratic};
use field::Residue;
use scan_total::Running;

#[repr(C)]
#[derive(Clone, Copy, Debug, PartialEq, Eq)]
pub struct YubiRunning {
    pub weight: u64,
    pub u0: u64,
    pub u1: u64,
    pub u2: u64,
    pub v0: u64,
    pub v1: u64,
    pub v2: u64,
    pub count: u64,
    pub pole: u32,
}

#[repr(C)]
#[derive(Clone, Copy, Debug, PartialEq, Eq)]
pub struct YubiScanned {
    pub number: u64,
    pub place: u64,
    pub length: u64,
    pub total: YubiRunning,
}

// Unused coefficients are 0.
impl From<Running> for YubiRunning {
    ghost from_gives = { λ t r. r ≡ flat_running (total_of t.divisor t.count t.pole) };

    fn from(t: Running) -> YubiRunning {
        let neutral = YubiRunning {
            weight: 0,
            u0: 0,
            u1: 0,
            u2: 0,
            v0: 0,
            v1: 0,
            v2: 0,
            count: t.count,
            pole: t.pole,
        };
        match t.divisor {
            Divisor::Neutral => neutral,
            Divisor::One(d) => YubiRunning {
                weight: 1,
                u0: d.u0.to_raw(),
                v0: d.v0.to_raw(),
                ..neutral
            },
            Divisor::Two(d) => YubiRunning {
                weight: 2,
                u0: d.u0.to_raw(),
                u1: d.u1.to_raw(),
                v0: d.v0.to_raw(),
                v1: d.v1.to_raw(),
                ..neutral
            },
            Divisor::Three(d) => YubiRunning {
                weight: 3,
                u0: d.u0.to_raw(),
                u1: d.u1.to_raw(),
                u2: d.u2.to_raw(),
                v0: d.v0.to_raw(),
                v1: d.v1.to_raw(),
                v2: d.v2.to_raw(),
                ..neutral
            },
        }
    }
}

// The same as a function, for callers that name it.
pub fn flatten_running(t: Running) -> YubiRunning
    ensures { result ≡ flat_running (total_of t.divisor t.count t.pole) }
{
    YubiRunning::from(t)
}

// The divisor of the coefficients below the weight.
pub fn divisor_of(t: YubiRunning) -> Divisor
    ensures { Cut t result }
{
    let u0 = Residue::from_raw(t.u0);
    let v0 = Residue::from_raw(t.v0);
    let u1 = Residue::from_raw(t.u1);
    let v1 = Residue::from_raw(t.v1);
    match t.weight {
        0 => Divisor::neutral(),
        1 => Divisor::One(Linear { u0, v0 }),
        2 => Divisor::Two(Quadratic { u0, u1, v0, v1 }),
        _ => Divisor::Three(Cubic {
            u0,
            u1,
            u2: Residue::from_raw(t.u2),
            v0,
            v1,
            v2: Residue::from_raw(t.v2),
        }),
    }
}

// Whether a total can have been flattened.
pub fn is_flat(t: YubiRunning) -> bool
    ensures { Decides result (Flattened t) }
{
    match t.weight {
        0 => t.u0 == 0 && t.u1 == 0 && t.u2 == 0 && t.v0 == 0 && t.v1 == 0 && t.v2 == 0,
        1 => t.u1 == 0 && t.u2 == 0 && t.v1 == 0 && t.v2 == 0,
        2 => t.u2 == 0 && t.v2 == 0,
        3 => true,
        _ => false,
    }
}
