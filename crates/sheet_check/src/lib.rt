// The layout check of model sheets, over a constant table of operations.
#![tactic(auto)]

pub mod check;
pub mod fields;
pub mod header;
pub mod operations;
