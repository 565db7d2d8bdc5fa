// The demands, and how tight the contracts are: the statements (specs/) and their proofs (proofs/). It has no code. It speaks of the
// promises of calls and streams, of calls on days, one after another, and of tables only as the promises do.
#![tactic(auto)]
