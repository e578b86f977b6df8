// IOTA: the walk over the mask, and the count of its matching bits.
ghost use Rattle.std.specs.Prelude.{◌≡◌, true, ℕ, ◌*◌, ◌%◌, ◌^◌, ◌<◌, ◌≤◌};
ghost use Rattle.numbers.specs.Working.{of_ones};
ghost use Rattle.numbers.specs.Rising.{rising};
ghost use Rattle.state.specs.declared.Control.{Control};
ghost use Rattle.opcodes.specs.Opcodes.{in_one_step};
ghost use Rattle.machine.specs.Run.{Gathered, run as run_of};
ghost use Rattle.machine.specs.Iota.{put};
ghost use Rattle.machine.specs.Working.{matched, counted, iota_turn, effected, done_for};

use crate::Effect;
use numbers::bits;
use opcodes::Instruction;
use state::{Element, Register};

// The next element of vc gets i's multiple.
fn turn(elements: &mut [u64; 1024], stride: u32, vc: Register, i: Element, next: Element)
    requires { (vc.0 < 16) × (i.0 < 64) × (next.0 < 64) }
    ensures { elements.new ≡ put vc.0 next.0 (i.0 * stride % 2 ^ 32) elements.old }
{
    let to = state::place(vc, next);
    elements[to] = numbers::halves::with_low(elements[to], numbers::halves::multiple(i.0, stride));
}

// The walk over the ones of a set, rising; gives how many there were.
fn walk(elements: &mut [u64; 1024], which: u64, stride: u32, vc: Register) -> usize
    requires { vc.0 < 16 }
    ensures { counted elements.new result ≡ rising (of_ones (iota_turn stride vc.0) which) 64 (counted elements.old 0) }
{
    let mut next: usize = 0;
    for i in bits::ones_of(which) {
        turn(elements, stride, vc, Element(i), Element(next));
        next += 1;
    }
    next
}

// IOTA, its one step.
pub fn iota(
    elements: &mut [u64; 1024],
    instruction: Instruction,
    stride: u64,
    mask: u64,
    vlr: u64,
    vmr: u64,
) -> Effect
    requires { (instruction.vc.0 < 16) × (vlr ≤ 64) × (in_one_step instruction ≡ true) × (mask ≡ matched vmr instruction.mtf) }
    ensures { (which : ℕ) (c : Control) (g : Gathered) → c.vlr ≡ vlr → c.vmr ≡ vmr → effected elements.new instruction result c g ≡ done_for which instruction stride (run_of elements.old c g) }
{
    let which = bits::low_bits(mask, vlr);
    let low = numbers::halves::longword(stride);
    walk(elements, which, low, Register::from(instruction.vc));
    let matching = which.count_ones() as u64;
    Effect {
        vmr,
        vcr: matching,
        notes: 0,
        wrote: bits::low_bits(18446744073709551615, matching),
    }
}
