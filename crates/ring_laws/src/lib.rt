// Two-way rings in a table: what the statements on it do, what it spells, and what its judge computes, in specs/. There is no code here.
#![tactic(auto)]
