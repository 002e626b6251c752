// Lemmas about tests that the proofs of every crate cite. No code.
#![tactic(auto)]
