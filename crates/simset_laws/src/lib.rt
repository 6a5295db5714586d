// The sets of SIMSET: what the set calls do, on plain lists and on a table of links, in specs/. There is no code here.
#![tactic(auto)]
