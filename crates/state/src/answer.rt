// What a call gives back, and why one is refused.
ghost use Rattle.std.specs.Prelude.{◌≡◌};
ghost use Rattle.state.specs.Answer.{number_of, beside_of, refusal_number, refusal_beside};
ghost use Rattle.state.specs.Outcome.{outcome, ended};

use crate::Control;

// Document 01, "Numbers given back", from 1 on, in the order of its numbers, each with what stands beside it.
#[derive(Clone, Copy)]
pub enum Refusal {
    // The queue position, 0 for a single call.
    ReservedOpcode(u64),
    ReservedControlWord(u64),
    Disabled,
    WindowRefused,
    // The element.
    Misaligned(u64),
    OutsideWindow(u64),
    // The queue position.
    MemoryOpcode(u64),
    // More than 16 in a queue, or its parts of unequal length.
    QueueRefused,
    // The list position.
    OrderRefused(u64),
    // The record number.
    BadFile(u64),
    ValueRefused,
    OutOfRange,
    NoSuchField,
}

// What a call gives back: what was read, 0 where nothing is; or why it was refused.
pub type Answer = Result<u64, Refusal>;

impl Refusal {
    // Its number.
    pub fn number(self) -> u32
        ensures { result ≡ refusal_number self }
    {
        match self {
            Refusal::ReservedOpcode(_) => 1,
            Refusal::ReservedControlWord(_) => 2,
            Refusal::Disabled => 3,
            Refusal::WindowRefused => 4,
            Refusal::Misaligned(_) => 5,
            Refusal::OutsideWindow(_) => 6,
            Refusal::MemoryOpcode(_) => 7,
            Refusal::QueueRefused => 8,
            Refusal::OrderRefused(_) => 9,
            Refusal::BadFile(_) => 10,
            Refusal::ValueRefused => 11,
            Refusal::OutOfRange => 12,
            Refusal::NoSuchField => 13,
        }
    }

    // What stands beside it.
    pub fn beside(self) -> u64
        ensures { result ≡ refusal_beside self }
    {
        match self {
            Refusal::ReservedOpcode(position) => position,
            Refusal::ReservedControlWord(position) => position,
            Refusal::Disabled => 0,
            Refusal::WindowRefused => 0,
            Refusal::Misaligned(element) => element,
            Refusal::OutsideWindow(element) => element,
            Refusal::MemoryOpcode(position) => position,
            Refusal::QueueRefused => 0,
            Refusal::OrderRefused(position) => position,
            Refusal::BadFile(record) => record,
            Refusal::ValueRefused => 0,
            Refusal::OutOfRange => 0,
            Refusal::NoSuchField => 0,
        }
    }
}

// The number of an answer: 0 where nothing is refused.
pub fn number(answer: Answer) -> u32
    ensures { result ≡ number_of answer }
{
    match answer {
        Ok(_) => 0,
        Err(refusal) => refusal.number(),
    }
}

// What stands beside it.
pub fn beside(answer: Answer) -> u64
    ensures { result ≡ beside_of answer }
{
    match answer {
        Ok(value) => value,
        Err(refusal) => refusal.beside(),
    }
}

// The end of a call that alters a control record: it is stored, and nothing is read. A refusal stores nothing.
#[tactic(auto, unfolding(crate::specs::Outcome::after_refusal))]
pub fn settle(after: Result<Control, Refusal>, control: &mut Control) -> Answer
    ensures { outcome result control.new ≡ ended control.old after }
{
    *control = after?;
    Ok(0)
}
