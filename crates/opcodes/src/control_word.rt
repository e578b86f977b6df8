// The control word: its fields, and the words that are reserved.
#![tactic(auto, unfolding(crate::specs::ControlWord::refused, crate::specs::ControlWord::control_word_of))]

ghost use Rattle.std.specs.Prelude.{◌≡◌, ◌&&◌, ◌||◌, ◌/◌, eqb};
ghost use Rattle.opcodes.specs.Works.{row_of};
ghost use Rattle.opcodes.specs.ControlWord.{relation_refused, conversion_refused, held_refused, gather_refused, refused as refused_of, instruction_of, control_word_of};

use crate::works::{Holds, Work};
use crate::{Field, Instruction};

// The relation is none.
fn relation_refused(relation: u8) -> bool
    ensures { result ≡ relation_refused relation }
{
    (relation % 8 == 3) | (relation % 8 == 7)
}

// Where it stands alone in its field, bit <3> is refused too.
fn lone_relation_refused(relation: u8) -> bool
    ensures { result ≡ (relation_refused relation || eqb (relation / 8) 1) }
{
    relation_refused(relation) | (relation / 8 == 1)
}

// The conversion is none of the three.
fn conversion_refused(conversion: u8) -> bool
    ensures { result ≡ conversion_refused conversion }
{
    !((conversion == 5) | (conversion == 4) | (conversion == 1))
}

// What the control word holds beside registers is refused.
fn held_refused(i: Instruction) -> bool
    ensures { result ≡ held_refused (row_of i.work).holds i }
{
    match i.work.holds() {
        Holds::Registers => false,
        Holds::Relation => relation_refused(i.vc.0),
        Holds::RelationAlone => lone_relation_refused(i.vc.0),
        Holds::Conversion => conversion_refused(i.va.0),
    }
}

// A gather would write over the offsets that it reads.
fn gather_refused(i: Instruction) -> bool
    ensures { result ≡ gather_refused i }
{
    i.work.is_load() && (i.scalar & (i.vb == i.vc))
}

// The instruction's control word is reserved.
fn refused(i: Instruction) -> bool
    ensures { result ≡ refused_of i }
{
    held_refused(i) || gather_refused(i)
}

// The instruction that an accepted opcode and a control word make.
fn instruction(work: Work, scalar: bool, cntrl: u16) -> Instruction
    ensures { result ≡ instruction_of work scalar cntrl }
{
    Instruction {
        work,
        scalar,
        moe: cntrl / 32768 % 2 == 1,
        mtf: cntrl / 16384 % 2 == 1,
        exc: cntrl / 8192 % 2 == 1,
        va: Field((cntrl / 256 % 16) as u8),
        vb: Field((cntrl / 16 % 16) as u8),
        vc: Field((cntrl % 16) as u8),
    }
}

// What the control word of an accepted opcode says: an instruction, or it is reserved.
pub(crate) fn read_control(work: Work, scalar: bool, cntrl: u16) -> Option<Instruction>
    ensures { result ≡ control_word_of work scalar cntrl }
{
    let i = instruction(work, scalar, cntrl);
    if refused(i) {
        return None;
    }
    Some(i)
}
