// No code: what the calls of crate `larderlate` and of a board promise together, as records in specs/, which proofs/ inhabits.
#![tactic(auto)]
