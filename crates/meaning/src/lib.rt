// What a day means: document 01 as definitions (specs/) and the laws of those definitions (proofs/). It has no code:
// the crates above prove their code against it, and it knows none of them.
#![tactic(auto)]
