// Every call of Kujawian, over plain data as C hands it (`kujawian_c` exports them). Each returns
// document 01's number and writes what stands beside it; after a refusal nothing else has changed.
// To C the control record and its five numbers are the same.
#![tactic(auto, unfolding(crate::specs::Face::left, crate::specs::Face::executed, saved::specs::Load::loading_marked))]

mod answers;
mod record;

ghost use Rattle.std.specs.Prelude.{◌≡◌, length};
ghost use Rattle.numbers.specs.Choice.{pick};
ghost use Rattle.state.specs.Answer.{numbers, is_done};
ghost use Rattle.state.specs.Marks.{all_marks};
ghost use Rattle.state.specs.Outcome.{given};
ghost use Rattle.control.specs.Moves.{vlr_read, vcr_read, vmr_low_read, vmr_high_read, vaer_read, vpsr_read, vlr_written, vcr_written, vmr_low_written, vmr_high_written, vpsr_written};
ghost use Rattle.execute.specs.Execute.{executed_of};
ghost use Rattle.touch.specs.Parts.{queue as queue_of};
ghost use Rattle.queue.specs.Run.{queue_run, walked_run, ordered_run};
ghost use Rattle.queue.specs.Claim.{AcceptedClaim};
ghost use Rattle.saved.specs.Save.{saving};
ghost use Rattle.saved.specs.Load.{loading_marked};
ghost use Rattle.kujawian.specs.Face.{control_of, state_of, marked_of, left, executed, cleared, field_read};

use state::answer::Answer;
use state::{Control, Element, Register, answer, marks};

pub fn kuj_read_vlr(control: &[u64; 5], beside: &mut u64) -> u32
    ensures { (result, beside.new) ≡ numbers (vlr_read (control_of control.now)) }
{
    answers::give(control::read_vlr(record::of(control)), beside)
}

pub fn kuj_read_vcr(control: &[u64; 5], beside: &mut u64) -> u32
    ensures { (result, beside.new) ≡ numbers (vcr_read (control_of control.now)) }
{
    answers::give(control::read_vcr(record::of(control)), beside)
}

pub fn kuj_read_vmr_low(control: &[u64; 5], beside: &mut u64) -> u32
    ensures { (result, beside.new) ≡ numbers (vmr_low_read (control_of control.now)) }
{
    answers::give(control::read_vmr_low(record::of(control)), beside)
}

pub fn kuj_read_vmr_high(control: &[u64; 5], beside: &mut u64) -> u32
    ensures { (result, beside.new) ≡ numbers (vmr_high_read (control_of control.now)) }
{
    answers::give(control::read_vmr_high(record::of(control)), beside)
}

pub fn kuj_read_vaer(control: &[u64; 5], beside: &mut u64) -> u32
    ensures { (result, beside.new) ≡ numbers (vaer_read (control_of control.now)) }
{
    answers::give(control::read_vaer(record::of(control)), beside)
}

pub fn kuj_read_vpsr(control: &[u64; 5], beside: &mut u64) -> u32
    ensures { (result, beside.new) ≡ numbers (vpsr_read (control_of control.now)) }
{
    answers::give(control::read_vpsr(record::of(control)), beside)
}

// The control writes alter the record where the caller keeps it: a refusal stores nothing.
#[tactic(auto, using(crate::proofs::Writes::written))]
pub fn kuj_write_vlr(control: &mut Control, value: u64, beside: &mut u64) -> u32
    ensures { ((result, beside.new), control.new) ≡ given (vlr_written control.old value) }
{
    let after = control::write_vlr(*control, value);
    answers::give(answer::settle(after, control), beside)
}

#[tactic(auto, using(crate::proofs::Writes::written))]
pub fn kuj_write_vcr(control: &mut Control, value: u64, beside: &mut u64) -> u32
    ensures { ((result, beside.new), control.new) ≡ given (vcr_written control.old value) }
{
    let after = control::write_vcr(*control, value);
    answers::give(answer::settle(after, control), beside)
}

#[tactic(auto, using(crate::proofs::Writes::written))]
pub fn kuj_write_vmr_low(control: &mut Control, value: u32, beside: &mut u64) -> u32
    ensures { ((result, beside.new), control.new) ≡ given (vmr_low_written control.old value) }
{
    let after = control::write_vmr_low(*control, value);
    answers::give(answer::settle(after, control), beside)
}

#[tactic(auto, using(crate::proofs::Writes::written))]
pub fn kuj_write_vmr_high(control: &mut Control, value: u32, beside: &mut u64) -> u32
    ensures { ((result, beside.new), control.new) ≡ given (vmr_high_written control.old value) }
{
    let after = control::write_vmr_high(*control, value);
    answers::give(answer::settle(after, control), beside)
}

#[tactic(auto, using(crate::proofs::Writes::written))]
pub fn kuj_write_vpsr(control: &mut Control, value: u32, beside: &mut u64) -> u32
    ensures { ((result, beside.new), control.new) ≡ given (vpsr_written control.old value) }
{
    let after = control::write_vpsr(*control, value);
    answers::give(answer::settle(after, control), beside)
}

// Executes one instruction.
pub fn kuj_execute(
    elements: &mut [u64; 1024],
    control: &mut [u64; 5],
    marks: &mut [u64; 16],
    opcode: u8,
    cntrl: u16,
    scalar: u64,
    base: u32,
    stride: u32,
    window: &mut [u8],
    origin: u64,
    beside: &mut u64,
) -> u32
    ensures { ((result, beside.new), elements.new, control.new, marks.new, window.new) ≡ executed control.old (executed_of (marked_of elements.old control.old marks.old) opcode cntrl scalar base stride window.old origin) }
{
    let after = execute::execute(
        elements,
        marks,
        record::of(control),
        opcode,
        cntrl,
        scalar,
        base,
        stride,
        window,
        origin,
    );
    answers::give(record::settle(after, control), beside)
}

// Runs a queue straight through.
pub fn kuj_run(
    elements: &mut [u64; 1024],
    control: &mut [u64; 5],
    marks: &mut [u64; 16],
    opcodes: &[u8],
    cntrls: &[u16],
    scalars: &[u64],
    beside: &mut u64,
) -> u32
    ensures { ((result, beside.new), elements.new, control.new, marks.new) ≡ left control.old (queue_run (queue_of opcodes.now cntrls.now scalars.now) (marked_of elements.old control.old marks.old)) }
{
    let after = queue::run(
        elements,
        marks,
        record::of(control),
        opcodes,
        cntrls,
        scalars,
    );
    answers::give(record::settle(after, control), beside)
}

// Runs a queue by a list of its steps. (That a control record is five numbers is its type's; a contract has no fact of it, so the last promise names it.)
pub fn kuj_run_order(
    elements: &mut [u64; 1024],
    control: &mut [u64; 5],
    marks: &mut [u64; 16],
    opcodes: &[u8],
    cntrls: &[u16],
    scalars: &[u64],
    order: &[u64],
    beside: &mut u64,
) -> u32
    ensures straight { ((result, beside.new), elements.new, control.new, marks.new) ≡ left control.old (ordered_run (queue_of opcodes.now cntrls.now scalars.now) order.now (marked_of elements.old control.old marks.old)) }
    ensures walked { ((result, beside.new), elements.new, control.new, marks.new) ≡ left control.old (walked_run (queue_of opcodes.now cntrls.now scalars.now) order.now (marked_of elements.old control.old marks.old)) }
    ensures demand { length control.old ≡ 5 → AcceptedClaim (queue_of opcodes.now cntrls.now scalars.now) order.now (marked_of elements.old control.old marks.old) result beside.new (marked_of elements.new control.new marks.new) }
{
    let after = queue::run_order(
        elements,
        marks,
        record::of(control),
        opcodes,
        cntrls,
        scalars,
        order,
    );
    answers::give(record::settle(after, control), beside)
}

// Saves the state into lent bytes.
pub fn kuj_save(
    elements: &[u64; 1024],
    control: &[u64; 5],
    file: &mut [u8],
    beside: &mut u64,
) -> u32
    ensures { ((result, beside.new), file.new) ≡ given (saving (state_of elements.now control.now) file.old) }
{
    answers::give(saved::save(elements, record::of(control), file), beside)
}

// A file that loads marks every element; one that is refused marks none.
fn mark_loaded(marks: &mut [u64; 16], given: Answer)
    ensures { marks.new ≡ pick (is_done given) all_marks marks.old }
{
    if given.is_ok() {
        marks::mark_all(marks);
    }
}

// Loads a state from the bytes of a file.
pub fn kuj_load(
    elements: &mut [u64; 1024],
    control: &mut [u64; 5],
    marks: &mut [u64; 16],
    file: &[u8],
    beside: &mut u64,
) -> u32
    ensures { ((result, beside.new), elements.new, control.new, marks.new) ≡ left control.old (loading_marked file.now (marked_of elements.old control.old marks.old)) }
{
    let after = saved::load(elements, record::of(control), file);
    let given = record::settle(after, control);
    mark_loaded(marks, given);
    answers::give(given, beside)
}

// Clears the marks: no element is marked.
pub fn kuj_clear_marks(marks: &mut [u64; 16], beside: &mut u64) -> u32
    ensures { ((result, beside.new), marks.new) ≡ cleared }
{
    marks::clear(marks);
    answers::give(Ok(0), beside)
}

// The reading of an element, as its kind and its bits.
pub fn kuj_reading(
    elements: &[u64; 1024],
    control: &[u64; 5],
    reg: u32,
    element: u32,
    kind: u32,
    kind_read: &mut u64,
    bits: &mut u64,
    beside: &mut u64,
) -> u32
    ensures { ((result, beside.new), kind_read.new, bits.new) ≡ field_read (state_of elements.now control.now) reg element kind kind_read.old bits.old }
{
    let field = panel::reading(
        elements,
        record::of(control),
        Register(reg as usize),
        Element(element as usize),
        kind,
    );
    match field {
        Ok(reading) => {
            *kind_read = floating::kind_of(reading);
            *bits = floating::bits_of(reading);
            answers::give(Ok(0), beside)
        }
        Err(refusal) => answers::give(Err(refusal), beside),
    }
}
