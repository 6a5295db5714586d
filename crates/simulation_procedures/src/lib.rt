// The published procedures of SIMULATION on lent tables: notices put, dropped and moved on the sequencing set, the procedures that current
// calls, and ACTIVATE.
#![tactic(auto)]

pub mod activation;
pub mod axis;
pub mod procedures;
