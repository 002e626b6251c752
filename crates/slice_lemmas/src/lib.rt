#![tactic(auto)]
// Lemmas for functions that take a lent slice of structs element by element, which the proofs of
// later crates cite. No code.
