// The bus as document 01 has it, and demand 3: definitions in specs/, proofs in proofs/. The calls
// are in crate `bus_calls`.
#![tactic(auto)]
