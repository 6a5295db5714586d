// One turn of a run on judged tables, and stretches of turns with no call that is made apart.
#![tactic(auto)]

pub mod stretch;
pub mod turn;
