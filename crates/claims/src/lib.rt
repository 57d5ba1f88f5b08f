#![tactic(auto)]

pub mod tenures;
