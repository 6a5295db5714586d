// Accumulators: what an update does, by value, in a list and as a call, in specs/. The code is in `accum_update` and `accum`.
#![tactic(auto)]

use model::Refusal;
use model::answer::Answer;

// What has been gathered, since when, and by how much it grows in a tick.
#[derive(Clone, Copy)]
pub struct Accumulator {
    pub a: i64,
    pub b: i64,
    pub c: i64,
}

// An accumulator after a call, and the call's answer.
#[derive(Clone, Copy)]
pub struct Kept {
    pub value: Accumulator,
    pub answer: Result<Answer, Refusal>,
}

// The element of a list that is to be updated, and when.
#[derive(Clone, Copy)]
pub struct Picked {
    pub at: usize,
    pub time: u64,
}
