// The plain machine: what a run of a model sheet means, in specs/. There is no function here, only the type that code and specs share.
#![tactic(auto)]

use model::Refusal;

// How a run ends: document 01 and demand 3 name these three, so this is no Result.
#[derive(Clone, Copy)]
pub enum End {
    // Main was current at position 0.
    Finished,
    // Fewer than 16 trace bytes were left.
    Full,
    // The next step, or the call itself, was turned down.
    Refused(Refusal),
}
