// The request's demands, and a look at a cut run, as statements over the library's contracts. It has no code to run.
#![tactic(auto)]
