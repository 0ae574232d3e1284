// The multiple of a divisor, as either engine hands it out: what both promise of it, and of a step (specs/Contracts).
use divisor::Divisor;

// With the counts of its steps.
#[derive(Clone, Copy, Debug, PartialEq, Eq)]
pub struct Multiple {
    pub divisor: Divisor,
    pub doublings: u64,
    pub additions: u64,
}
