// Leaf functions on numbers.
#![tactic(auto)]

pub mod bits;
pub mod bytes;
pub mod halves;
pub mod relation;
