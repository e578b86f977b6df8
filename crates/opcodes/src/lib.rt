// Opcodes and control words: which instructions are accepted, and what they say.
#![tactic(auto)]

ghost use Rattle.std.specs.Prelude.{◌≡◌};
ghost use Rattle.opcodes.specs.Decoding.{decoded_of};

use state::Register;
use state::answer::Refusal;

mod control_word;
pub mod masking;
mod table;
pub mod works;

use works::Work;

// A field of the control word, four bits: the number of a register or, where the work takes none there, of a conversion or a relation.
#[derive(Clone, Copy, PartialEq, Eq)]
pub struct Field(pub u8);

// The register that a field names.
impl From<Field> for Register {
    ghost from_gives = { λ field register. register.0 ≡ field.0 };

    fn from(field: Field) -> Register {
        Register(field.0 as usize)
    }
}

// A decoded instruction: the one value that the layers above work from.
#[derive(Clone, Copy)]
pub struct Instruction {
    pub work: Work,
    // The scalar form of an operate opcode takes a scalar for Va (IOTA: the stride); that of a memory opcode takes offsets from Vb
    // instead of a stride.
    pub scalar: bool,
    // With moe, only elements whose mask bit is mtf are operated on.
    pub moe: bool,
    pub mtf: bool,
    // Integer overflow and floating underflow are recorded.
    pub exc: bool,
    // Va; the conversion, for convert.
    pub va: Field,
    pub vb: Field,
    // Vc; <2:0> is the relation, for compare.
    pub vc: Field,
}

// What an opcode and a control word say at a queue position, or, at 0, by themselves: an instruction, or why there is none. A refused opcode ends the check:
// only an accepted one has its control word read.
#[tactic(auto, unfolding(crate::specs::Decoding::decoded_of))]
pub fn decode(
    enabled: bool,
    queued: bool,
    position: u64,
    opcode: u8,
    cntrl: u16,
) -> Result<Instruction, Refusal>
    ensures { result ≡ decoded_of enabled queued position opcode cntrl }
{
    let Some((work, scalar)) = table::look_up(opcode) else {
        return Err(Refusal::ReservedOpcode(position));
    };
    if !enabled {
        return Err(Refusal::Disabled);
    }
    if queued & work.is_memory() {
        return Err(Refusal::MemoryOpcode(position));
    }
    control_word::read_control(work, scalar, cntrl).ok_or(Refusal::ReservedControlWord(position))
}
