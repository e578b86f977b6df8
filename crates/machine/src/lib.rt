// Register instructions over the lent elements and marks.
#![tactic(auto)]

use state::Control;

pub mod instruction;
mod iota;
mod lanes;
mod mask;
mod operand;
pub mod run;

// Of what a run gathers by or, in whatever order its steps come, all but the marks, which are lent: the bits that VAER gets, and whether
// anything was recorded.
#[derive(Clone, Copy)]
pub struct Noted {
    pub vaer: u64,
    pub recorded: bool,
}

// A run under way: the control record, and what was noted so far.
#[derive(Clone, Copy)]
pub struct Progress {
    pub control: Control,
    pub noted: Noted,
}

// Which elements below a length a compare finds in its relation, and which it refuses: element i is bit i.
#[derive(Clone, Copy)]
pub struct Found {
    pub found: u64,
    pub refused: u64,
}

// What an instruction leaves beside elements: VMR, VCR, what VAER gets, and the set of the elements of Vc that it wrote.
#[derive(Clone, Copy)]
pub struct Effect {
    pub vmr: u64,
    pub vcr: u64,
    pub notes: u64,
    pub wrote: u64,
}
