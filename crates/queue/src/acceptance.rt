// Whether a queue is accepted: 12, 8, then 3, then per position from 0: 1, 7, 2.
ghost use Rattle.std.specs.Prelude.{◌≡◌};
ghost use Rattle.state.specs.Answer.{answered};
ghost use Rattle.touch.specs.Parts.{placeholder as placeholder_of, queue};
ghost use Rattle.queue.specs.Queue.{well_formed};
ghost use Rattle.queue.specs.CallsWorking.{standing, holding, Accepts};

use opcodes;
use opcodes::works::Work;
use opcodes::{Field, Instruction};
use state;
use state::Control;
use state::answer::Refusal;

// At most 16 instructions, and parts of equal length.
fn well_formed(opcodes: &[u8], cntrls: &[u16], scalars: &[u64]) -> bool
    ensures { result ≡ well_formed (queue opcodes.now cntrls.now scalars.now) }
{
    (opcodes.len() <= 16) & (cntrls.len() == opcodes.len()) & (scalars.len() == opcodes.len())
}

// The instruction that stands for a refused one, which no accepted queue has.
pub fn placeholder() -> Instruction
    ensures { result ≡ placeholder_of }
{
    Instruction {
        work: Work::AddLongword,
        scalar: false,
        moe: false,
        mtf: false,
        exc: false,
        va: Field(0),
        vb: Field(0),
        vc: Field(0),
    }
}

// The tests before the positions: 12, 8, then 3.
fn stand(control: Control, opcodes: &[u8], cntrls: &[u16], scalars: &[u64]) -> Result<(), Refusal>
    ensures { answered result ≡ standing control (queue opcodes.now cntrls.now scalars.now) }
{
    if !state::in_range(control) {
        return Err(Refusal::OutOfRange);
    }
    if !well_formed(opcodes, cntrls, scalars) {
        return Err(Refusal::QueueRefused);
    }
    if !state::enabled(control) {
        return Err(Refusal::Disabled);
    }
    Ok(())
}

// Puts the instructions of a queue that is accepted into lent room. Each position is decoded once, here. (Handed on in a result, sixteen instructions just
// stored would be read again at once, by other widths.)
pub fn accept(
    control: Control,
    opcodes: &[u8],
    cntrls: &[u16],
    scalars: &[u64],
    program: &mut [Instruction; 16],
) -> Result<(), Refusal>
    ensures { Accepts control (queue opcodes.now cntrls.now scalars.now) (holding result program.new) }
{
    stand(control, opcodes, cntrls, scalars)?;
    for k in 0..opcodes.len() {
        program[k] = opcodes::decode(true, true, k as u64, opcodes[k], cntrls[k])?;
    }
    // It passed every test.
    Ok(())
}
