// The laws of the plain machine, in specs/. There is no code here.
#![tactic(auto)]
