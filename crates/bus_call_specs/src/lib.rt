// What the calls on a bus do, one by one and in lists: definitions (specs/) and theorems (proofs/)
// alone, no code.
#![tactic(auto)]
