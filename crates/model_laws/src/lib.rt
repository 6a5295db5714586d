// A model's lent tables: what well-formed tables are, which lists they spell, and calls that judge them first, in specs/. There is no code
// here.
#![tactic(auto)]
