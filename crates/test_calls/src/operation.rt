// The operations of frames, by the numbers that tools/README.md has; 12 to 14 are no frame's own.
#[derive(Clone, Copy, Debug, PartialEq, Eq)]
pub enum Operation {
    Label = 0,
    CheckCurve = 1,
    CheckDivisor = 2,
    RewriteCurve = 3,
    RewriteDivisor = 4,
    Add = 5,
    Double = 6,
    Opposite = 7,
    Multiply = 8,
    TotalBatch = 9,
    FirstRepeat = 10,
    Scan = 11,
    InversionFree = 12,
    ScanLent = 13,
    ScanInside = 14,
    CheckOrder = 15,
    Split = 16,
    NextDivisor = 17,
    WritePoleFile = 18,
    ReadPoleFile = 19,
}

#[derive(Clone, Copy, Debug, PartialEq, Eq)]
pub struct UnknownOperation(pub u8);

impl TryFrom<u8> for Operation {
    ghost use Rattle.std.specs.Prelude.{◌≡◌, ◌<◌, MatchResult};
    ghost use Rattle.test_calls.specs.Operations.{number_of};

    type Error = UnknownOperation;

    ghost try_from_gives = { λ n r. MatchResult r (λ x. number_of x ≡ n) (λ e. 19 < n) };

    fn try_from(n: u8) -> Result<Operation, UnknownOperation> {
        match n {
            0 => Ok(Operation::Label),
            1 => Ok(Operation::CheckCurve),
            2 => Ok(Operation::CheckDivisor),
            3 => Ok(Operation::RewriteCurve),
            4 => Ok(Operation::RewriteDivisor),
            5 => Ok(Operation::Add),
            6 => Ok(Operation::Double),
            7 => Ok(Operation::Opposite),
            8 => Ok(Operation::Multiply),
            9 => Ok(Operation::TotalBatch),
            10 => Ok(Operation::FirstRepeat),
            11 => Ok(Operation::Scan),
            12 => Ok(Operation::InversionFree),
            13 => Ok(Operation::ScanLent),
            14 => Ok(Operation::ScanInside),
            15 => Ok(Operation::CheckOrder),
            16 => Ok(Operation::Split),
            17 => Ok(Operation::NextDivisor),
            18 => Ok(Operation::WritePoleFile),
            19 => Ok(Operation::ReadPoleFile),
            _ => Err(UnknownOperation(n)),
        }
    }
}

impl Operation {
    ghost use Rattle.std.specs.Prelude.{◌≡◌};
    ghost use Rattle.test_calls.specs.Operations.{others_of};

    // The operations beside it that the same frame is run through, whose lines must be the same: a multiple has two, a scan three.
    pub fn others(self) -> &'static [Operation]
        ensures { result.now ≡ others_of self }
    {
        match self {
            Operation::Multiply => &[Operation::InversionFree],
            Operation::Scan => &[Operation::ScanLent, Operation::ScanInside],
            _ => &[],
        }
    }
}
