// The sets of SIMSET: procedures on a table of links, the calls on the links of a judged model, the head of a link's set, and whether a
// set has room.
#![tactic(auto)]

pub mod heads;
pub mod procedures;
pub mod room;
pub mod steps;
