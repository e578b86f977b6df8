// The three demands, each one theorem over the definitions that the promises cite: see `specs/` for what they say and `proofs/` for the
// theorems. There is no code here.
#![tactic(auto)]
