// The update of an accumulator: by value, and in a flat list of words as a run keeps it; and the list as an array of structs. Core
// functions: callers know the time.
#![tactic(auto)]

pub mod flat;
pub mod gather;
pub mod update;
