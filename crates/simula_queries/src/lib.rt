// The queries of SIMSET and SIMULATION. Core functions: the caller knows that the tables were judged.
#![tactic(auto)]

pub mod on_axis;
pub mod on_links;
