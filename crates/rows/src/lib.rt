// The rows of the step table in code, and one step of a thread: what each row stores and counts in the state that the run lends, and what it reports about its step. An inner crate that the calls use.
#![tactic(auto)]

pub mod acquire;
pub mod common;
pub mod kinds;
pub mod release;
pub mod step;
