ghost use Rattle.std.specs.Prelude.{◌<◌};

// The two places of a repeat, counted from 1, so that neither is the 0 that stands for none.
#[derive(Clone, Copy)]
pub struct Repeat {
    pub first: u64,
    pub second: u64,
    pub ghost some: { (0 < first) × (0 < second) },
}
