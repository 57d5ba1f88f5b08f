// What a run with waits returns, and a mean.
#![tactic(auto)]

use model::{Counts, LockState};

// A mean in lowest terms.
#[derive(Clone, Copy)]
pub struct Fraction {
    pub numerator: u64,
    pub denominator: u64,
}

// What the run returns, and how many rows were written. Number 0 means accepted.
#[repr(C)]
#[derive(Clone, Copy)]
pub struct WaitsReply {
    pub number: u32,
    pub place: u32,
    pub counts: Counts,
    pub rows: u32,
    pub state: LockState,
}
