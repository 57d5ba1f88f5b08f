// The reply of the call for rounds. Its meaning is in specs/.
#![tactic(auto)]

pub mod longest_wait;
pub mod starvation_freedom;

// Number and place of a refusal; if accepted, how many rounds contain an entry of every thread, and how many turns these are in round robin, each capped at the largest 64-bit number; if refused, 0.
#[repr(C)]
#[derive(Clone, Copy)]
pub struct RoundsReply {
    pub number: u32,
    pub place: u32,
    pub rounds: u64,
    pub turns: u64,
}
