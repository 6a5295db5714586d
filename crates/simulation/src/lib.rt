// The calls of SIMULATION on the tables of a judged model, and the short ways that runs take.
#![tactic(auto)]

pub mod soon;
pub mod steps;
