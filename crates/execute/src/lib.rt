// One instruction.
#![tactic(auto)]

ghost use Rattle.std.specs.Prelude.{◌≡◌, true, ◌≤◌};
ghost use Rattle.state.specs.Marks.{marked};
ghost use Rattle.state.specs.Answer.{answered};
ghost use Rattle.state.specs.Outcome.{outcome, control_left};
ghost use Rattle.state.specs.State.{state as state_of};
ghost use Rattle.opcodes.specs.Working.{Below, in_table, is_register_work};
ghost use Rattle.machine.specs.Instruction.{instruction_done};
ghost use Rattle.execute.specs.Execute.{carried_out, executed_of};

use machine::{instruction, run};
use memory;
use opcodes;
use opcodes::Instruction;
use state::Control;
use state::answer::Refusal;

// A register instruction by itself.
fn register(
    elements: &mut [u64; 1024],
    marks: &mut [u64; 16],
    control: Control,
    instruction: Instruction,
    scalar: u64,
) -> Control
    requires { Below instruction × (is_register_work instruction.work ≡ true) × (control.vlr ≤ 64) }
    ensures { marked (state_of elements.new result) marks.new ≡ instruction_done instruction scalar (marked (state_of elements.old control) marks.old) }
{
    run::end(instruction::whole(elements, marks, run::begin(control), instruction, scalar))
}

// An instruction that passed the checks.
#[tactic(auto, unfolding(crate::specs::Execute::carried_out))]
fn carry_out(
    elements: &mut [u64; 1024],
    marks: &mut [u64; 16],
    control: Control,
    instruction: Instruction,
    scalar: u64,
    base: u32,
    stride: u32,
    window: &mut [u8],
    origin: u64,
) -> Result<Control, Refusal>
    requires { Below instruction × (in_table instruction.work ≡ true) × (control.vlr ≤ 64) }
    ensures { outcome (answered result) (marked (state_of elements.new (control_left control result)) marks.new, window.new) ≡ carried_out instruction (marked (state_of elements.old control) marks.old) scalar base stride window.old origin }
{
    if instruction.work.is_memory() {
        return memory::transfer(
            elements,
            marks,
            control,
            instruction,
            base,
            stride,
            window,
            origin,
        );
    }
    Ok(register(elements, marks, control, instruction, scalar))
}

// One instruction.
#[tactic(auto, unfolding(crate::specs::Execute::executed_of, state::specs::Outcome::after_refusal))]
pub fn execute(
    elements: &mut [u64; 1024],
    marks: &mut [u64; 16],
    control: Control,
    opcode: u8,
    cntrl: u16,
    scalar: u64,
    base: u32,
    stride: u32,
    window: &mut [u8],
    origin: u64,
) -> Result<Control, Refusal>
    ensures { outcome (answered result) (marked (state_of elements.new (control_left control result)) marks.new, window.new) ≡ executed_of (marked (state_of elements.old control) marks.old) opcode cntrl scalar base stride window.old origin }
{
    if !state::in_range(control) {
        return Err(Refusal::OutOfRange);
    }
    let instruction = opcodes::decode(state::enabled(control), false, 0, opcode, cntrl)?;
    carry_out(
        elements,
        marks,
        control,
        instruction,
        scalar,
        base,
        stride,
        window,
        origin,
    )
}
