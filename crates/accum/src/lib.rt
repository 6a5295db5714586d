// The public calls of accum: on an accumulator by value, in a flat list, and lent as a struct or in a slice of structs.
#![tactic(auto)]

pub mod calls;
pub mod lending;
pub mod lent;
