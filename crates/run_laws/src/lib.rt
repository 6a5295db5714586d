// Runs of model sheets: what a run call does to its tables and trace, that this is the plain machine's, and demand 3, in specs/. The code
// is in `run_arms`, `run_step`, `run_turn`, `run_turns`, `run_fresh`, `run_judge`, `run_answer` and `run`.
#![tactic(auto)]

use machine::End;
use model::Refusal;

// The words of a run's 64 accumulators, three for each.
pub const RUN_WORDS: usize = 192;

// The longest trace, in bytes.
pub const TRACE_LIMIT: usize = 65536;

// What a run call answers: how many lines it wrote, and how it ended.
#[derive(Clone, Copy)]
pub struct Ran {
    pub lines: u32,
    pub end: End,
}

// What an accepted step's call means for the process that makes it.
#[derive(Clone, Copy)]
pub enum Effect {
    // It stays current, and goes on at the record's next,
    Stays,
    // or at y, where 12 finds the head empty.
    Jumps(u32),
    // Another may be current now.
    Moves,
    // The call is one of those that are made apart; it is not made yet.
    Apart,
}

// Why a stretch of turns ends. No Result: each case stands beside the byte that was reached.
#[derive(Clone, Copy)]
pub enum Pause {
    // The trace has no room for a line more.
    Full,
    // The call that is due is made apart.
    Apart,
    Refused(Refusal),
}

// A stretch of turns: the byte that the next line would go to, and why it ends.
#[derive(Clone, Copy)]
pub struct Stretch {
    pub at: usize,
    pub pause: Pause,
}

// What one turn comes to, where the step is not turned down.
#[derive(Clone, Copy)]
pub enum Turn {
    // Main was current at position 0.
    Finished,
    // A step was made, and its line stands in the trace.
    Made,
}
