// The table of examples is a theorem: proofs/Table.antt. This crate has no code.
#![tactic(auto)]
