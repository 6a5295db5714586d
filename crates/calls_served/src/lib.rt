// The calls program's requests and responses in bytes: the head of a request, its contents, and what a call answers.
#![tactic(auto)]

pub mod contents;
mod copying;
pub mod head;
mod put;
pub mod reply;
