// What a run that reports its steps returns.
#![tactic(auto)]

use model::{Counts, LockState};

// What the run returns, and how many rows were written, one per step. Number 0 means accepted.
#[repr(C)]
#[derive(Clone, Copy)]
pub struct KindsReply {
    pub number: u32,
    pub place: u32,
    pub counts: Counts,
    pub rows: u32,
    pub state: LockState,
}
