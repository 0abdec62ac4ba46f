// The infinite grid: definitions (specs/) and their laws (proofs/). It has no code to run.
#![tactic(auto)]
