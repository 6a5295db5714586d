// Model sheets: what their bytes say and which are accepted, in specs/; records read where they lie.
#![tactic(auto)]

pub mod header;
pub mod operations;
pub mod records;
