// The call of the record that current is at, or finish, on judged tables: those that a stretch of turns makes, and those made apart.
// Core functions: the caller knows that the tables were judged.
#![tactic(auto)]

pub mod apart;
pub mod perform;
