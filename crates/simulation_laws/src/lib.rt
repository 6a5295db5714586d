// The time axis of SIMULATION: what the sequencing calls do, on plain lists of notices and on lent tables, in specs/. There is no code
// here.
#![tactic(auto)]
