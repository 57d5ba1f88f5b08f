// The calls that run and write lock files, and the printing of a listing.
#![tactic(auto)]

pub mod printing;
pub mod running;
pub mod writing;
