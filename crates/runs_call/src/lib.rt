// Runs that answer more: many schedules in one call, a run with waits, a run that reports its steps.
#![tactic(auto)]

pub mod many_schedules;
pub mod with_kinds;
pub mod with_waits;
