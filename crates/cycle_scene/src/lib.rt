// A cycle of Q and S bits on a bus, computed: definitions (specs/) alone, no code.
#![tactic(auto)]
