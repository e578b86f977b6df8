// Memory instructions over the lent elements, marks and window.
#![tactic(auto)]

ghost use Rattle.std.specs.Prelude.{◌≡◌, ◌<◌, ◌≤◌, length};
ghost use Rattle.numbers.specs.Bits.{bit};
ghost use Rattle.state.specs.Marks.{marked};
ghost use Rattle.state.specs.Answer.{answered};
ghost use Rattle.state.specs.Outcome.{outcome, control_left};
ghost use Rattle.state.specs.State.{state};
ghost use Rattle.memory.specs.Works.{size_of};
ghost use Rattle.memory.specs.Working.{address_in, tests_at};
ghost use Rattle.memory.specs.Move.{moved_by, moved_of};

use access::{Access, Addressing};
use opcodes::{Instruction, masking};
use state::answer::Refusal;
use state::{Control, Register};

mod access;
mod addresses;
mod loads;
mod moves;
mod stores;
mod tests;
mod window;

// Tests the elements, and moves them if all are fine.
fn all_or_none(
    elements: &mut [u64; 1024],
    marks: &mut [u64; 16],
    control: Control,
    window: &mut [u8],
    access: Access,
) -> Result<Control, Refusal>
    requires { length window.old ≡ access.bytes }
    ensures { outcome (answered result) (marked (state elements.new (control_left control result)) marks.new, window.new) ≡ moved_by access.to_window access.quadword access.vc.0 (bit access.which) (tests_at (size_of access.quadword) (length window.old) (address_in access.addressing elements.old)) (address_in access.addressing elements.old) 64 (marked (state elements.old control) marks.old) window.old }
{
    let mut addresses = [0u32; 64];
    access.test(&mut addresses, elements)?;
    access.carry_out(elements, marks, window, &addresses);
    Ok(control)
}

// Loads, stores, gathers or scatters. The window is tested first, then every operated element; only if all are fine is anything moved. It stands apart, so
// that no change elsewhere moves its short loops: where they lie weighs two fifths.
#[inline(never)]
#[tactic(auto, unfolding(crate::specs::Move::moved_of))]
pub fn transfer(
    elements: &mut [u64; 1024],
    marks: &mut [u64; 16],
    control: Control,
    instruction: Instruction,
    base: u32,
    stride: u32,
    window: &mut [u8],
    origin: u64,
) -> Result<Control, Refusal>
    requires { (instruction.vb.0 < 16) × (instruction.vc.0 < 16) × (control.vlr ≤ 64) }
    ensures { outcome (answered result) (marked (state elements.new (control_left control result)) marks.new, window.new) ≡ moved_of (marked (state elements.old control) marks.old) instruction base stride window.old origin }
{
    if !window::allowed(window.len() as u64, origin) {
        return Err(Refusal::WindowRefused);
    }
    let access = Access {
        addressing: Addressing {
            offsets: instruction.scalar,
            // From here on the window stands at 0: its origin is taken from the base once, and not from each address.
            base: base.wrapping_sub(numbers::halves::longword(origin)),
            stride,
            vb: Register::from(instruction.vb),
        },
        to_window: instruction.work.is_store(),
        quadword: instruction.work.is_quadword(),
        vc: Register::from(instruction.vc),
        which: masking::operated(instruction, control.vlr, control.vmr),
        n: control.vlr as usize,
        bytes: window.len() as u64,
    };
    all_or_none(elements, marks, control, window, access)
}
