// Terminals on one D channel: definitions (specs/) and theorems (proofs/) alone, no code.
#![tactic(auto)]
