// A whole register instruction, and one step of it.
ghost use Rattle.std.specs.Prelude.{◌≡◌, List, true, false, ℕ, ◌<◌, ◌≤◌};
ghost use Rattle.numbers.specs.Bits.{bit};
ghost use Rattle.state.specs.declared.Control.{Control};
ghost use Rattle.opcodes.specs.Opcodes.{in_one_step};
ghost use Rattle.machine.specs.Run.{Gathered, run as run_of, gathered_in, under_way};
ghost use Rattle.machine.specs.Step.{register_bit, notes, worked};
ghost use Rattle.machine.specs.Instruction.{step_of, whole_of};
ghost use Rattle.opcodes.specs.Working.{Below, is_register_work};
ghost use Rattle.machine.specs.Working.{matched as matched_of, effected as effected_of, done_for};

use crate::{Effect, Progress, iota, lanes, mask, run};
use numbers::bits;
use opcodes::Instruction;
use opcodes::masking::operated;
use state::{Element, Register, marks};

// The bit of a register in VAER.
fn register_bit(register: Register) -> u64
    requires { register.0 < 16 }
    ensures { result ≡ register_bit false register.0 }
{
    1 << (16 + register.0)
}

// The mask bits that are MTF.
fn matched(vmr: u64, mtf: bool) -> u64
    ensures { result ≡ matched_of vmr mtf }
{
    if mtf { vmr } else { !vmr }
}

// What a work that writes the elements of a set leaves beside them.
fn noted(instruction: Instruction, vmr: u64, vcr: u64, types: u64, which: u64) -> Effect
    requires { instruction.vc.0 < 16 }
    ensures { result ≡ record { vmr = vmr; vcr = vcr; notes = notes (register_bit false instruction.vc.0) types; wrote = which } }
{
    Effect {
        vmr,
        vcr,
        notes: run::note(register_bit(Register::from(instruction.vc)), types),
        wrote: which,
    }
}

// The work of the elements of a set, which lies below VLR; or IOTA's one step. Control numbers go in and out by themselves: the record
// would go through memory. So the loops stand apart (`lanes::over`, `mask::over`), and what is around them is put in line where an instruction is called for,
// with a run's record at hand.
#[inline(always)]
fn effect(
    elements: &mut [u64; 1024],
    instruction: Instruction,
    scalar: u64,
    which: u64,
    vlr: u64,
    vmr: u64,
    vcr: u64,
) -> Effect
    requires below { Below instruction × (is_register_work instruction.work ≡ true) × (vlr ≤ 64) }
    requires within { (i : ℕ) → bit which i ≡ true → i < vlr }
    ensures { (c : Control) (g : Gathered) → c.vlr ≡ vlr → c.vmr ≡ vmr → c.vcr ≡ vcr → effected_of elements.new instruction result c g ≡ done_for which instruction scalar (run_of elements.old c g) }
{
    if instruction.work.writes_mask() {
        return mask::over(elements, instruction, scalar, which, vlr as usize, vmr, vcr);
    }
    let mask = matched(vmr, instruction.mtf);
    if instruction.work.in_one_step() {
        return iota::iota(elements, instruction, scalar, mask, vlr, vmr);
    }
    let types = lanes::over(elements, instruction, scalar, mask, which, vlr as usize);
    noted(instruction, vmr, vcr, types, which)
}

// The work of one element, which is operated on.
fn one(
    elements: &mut [u64; 1024],
    instruction: Instruction,
    scalar: u64,
    i: Element,
    vmr: u64,
    vcr: u64,
) -> Effect
    requires { Below instruction × (is_register_work instruction.work ≡ true) × (i.0 < 64) × (in_one_step instruction ≡ false) }
    ensures { (c : Control) (g : Gathered) → c.vmr ≡ vmr → c.vcr ≡ vcr → effected_of elements.new instruction result c g ≡ worked instruction scalar i.0 (run_of elements.old c g) }
{
    if instruction.work.writes_mask() {
        return mask::at(elements, instruction, scalar, i, vmr, vcr);
    }
    let which = bits::with_bit(0, i.0, 1);
    let types = lanes::over(
        elements,
        instruction,
        scalar,
        matched(vmr, instruction.mtf),
        which,
        64,
    );
    noted(instruction, vmr, vcr, types, which)
}

// The run under way after what was done: what VAER gets is noted, and the elements that were written are marked, all of them at once.
fn effected(
    marks: &mut [u64; 16],
    progress: Progress,
    instruction: Instruction,
    effect: Effect,
) -> Progress
    requires { instruction.vc.0 < 16 }
    ensures { (l : List ℕ) → under_way l marks.new result ≡ effected_of l instruction effect progress.control (gathered_in marks.old progress.noted) }
{
    let mut control = progress.control;
    control.vmr = effect.vmr;
    control.vcr = effect.vcr;
    let before = progress.noted;
    let noted = run::gather(before, effect.notes);
    marks::add(marks, Register::from(instruction.vc), effect.wrote);
    Progress { control, noted }
}

// A register instruction, whole.
#[inline(always)]
pub fn whole(
    elements: &mut [u64; 1024],
    marks: &mut [u64; 16],
    progress: Progress,
    instruction: Instruction,
    scalar: u64,
) -> Progress
    requires { Below instruction × (is_register_work instruction.work ≡ true) × (progress.control.vlr ≤ 64) }
    ensures { under_way elements.new marks.new result ≡ whole_of instruction scalar (under_way elements.old marks.old progress) }
{
    let vlr = progress.control.vlr;
    let vmr = progress.control.vmr;
    let vcr = progress.control.vcr;
    let which = operated(instruction, vlr, vmr);
    let done = effect(elements, instruction, scalar, which, vlr, vmr, vcr);
    effected(marks, progress, instruction, done)
}

// One step: the work of its element alone, or IOTA's whole.
pub fn step(
    elements: &mut [u64; 1024],
    marks: &mut [u64; 16],
    progress: Progress,
    instruction: Instruction,
    scalar: u64,
    element: Element,
) -> Progress
    requires { Below instruction × (is_register_work instruction.work ≡ true) × (progress.control.vlr ≤ 64) × (element.0 < 64) }
    ensures { under_way elements.new marks.new result ≡ step_of instruction scalar element.0 (under_way elements.old marks.old progress) }
{
    let vlr = progress.control.vlr;
    let vmr = progress.control.vmr;
    let vcr = progress.control.vcr;
    if instruction.work.in_one_step() {
        let mask = matched(vmr, instruction.mtf);
        let done = iota::iota(elements, instruction, scalar, mask, vlr, vmr);
        return effected(marks, progress, instruction, done);
    }
    if !bits::bit(operated(instruction, vlr, vmr), element.0) {
        return progress;
    }
    let done = one(elements, instruction, scalar, element, vmr, vcr);
    effected(marks, progress, instruction, done)
}
