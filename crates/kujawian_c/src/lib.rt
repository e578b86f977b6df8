// Every call of Kujawian, exported for C by its name. What each does and promises is `kujawian`'s: here it is called.
#![tactic(auto)]

ghost use Rattle.std.specs.Prelude.{◌≡◌, length};
ghost use Rattle.state.specs.Answer.{numbers};
ghost use Rattle.state.specs.Outcome.{given};
ghost use Rattle.control.specs.Moves.{vlr_read, vcr_read, vmr_low_read, vmr_high_read, vaer_read, vpsr_read, vlr_written, vcr_written, vmr_low_written, vmr_high_written, vpsr_written};
ghost use Rattle.execute.specs.Execute.{executed_of};
ghost use Rattle.touch.specs.Parts.{queue as queue_of};
ghost use Rattle.queue.specs.Run.{queue_run, walked_run, ordered_run};
ghost use Rattle.queue.specs.Claim.{AcceptedClaim};
ghost use Rattle.saved.specs.Save.{saving};
ghost use Rattle.saved.specs.Load.{loading_marked};
ghost use Rattle.kujawian.specs.Face.{control_of, state_of, marked_of, left, executed, cleared, field_read};

use state::Control;

#[unsafe(no_mangle)]
pub extern "C" fn kuj_read_vlr(control: &[u64; 5], beside: &mut u64) -> u32
    ensures { (result, beside.new) ≡ numbers (vlr_read (control_of control.now)) }
{
    kujawian::kuj_read_vlr(control, beside)
}

#[unsafe(no_mangle)]
pub extern "C" fn kuj_read_vcr(control: &[u64; 5], beside: &mut u64) -> u32
    ensures { (result, beside.new) ≡ numbers (vcr_read (control_of control.now)) }
{
    kujawian::kuj_read_vcr(control, beside)
}

#[unsafe(no_mangle)]
pub extern "C" fn kuj_read_vmr_low(control: &[u64; 5], beside: &mut u64) -> u32
    ensures { (result, beside.new) ≡ numbers (vmr_low_read (control_of control.now)) }
{
    kujawian::kuj_read_vmr_low(control, beside)
}

#[unsafe(no_mangle)]
pub extern "C" fn kuj_read_vmr_high(control: &[u64; 5], beside: &mut u64) -> u32
    ensures { (result, beside.new) ≡ numbers (vmr_high_read (control_of control.now)) }
{
    kujawian::kuj_read_vmr_high(control, beside)
}

#[unsafe(no_mangle)]
pub extern "C" fn kuj_read_vaer(control: &[u64; 5], beside: &mut u64) -> u32
    ensures { (result, beside.new) ≡ numbers (vaer_read (control_of control.now)) }
{
    kujawian::kuj_read_vaer(control, beside)
}

#[unsafe(no_mangle)]
pub extern "C" fn kuj_read_vpsr(control: &[u64; 5], beside: &mut u64) -> u32
    ensures { (result, beside.new) ≡ numbers (vpsr_read (control_of control.now)) }
{
    kujawian::kuj_read_vpsr(control, beside)
}

#[unsafe(no_mangle)]
pub extern "C" fn kuj_write_vlr(control: &mut Control, value: u64, beside: &mut u64) -> u32
    ensures { ((result, beside.new), control.new) ≡ given (vlr_written control.old value) }
{
    kujawian::kuj_write_vlr(control, value, beside)
}

#[unsafe(no_mangle)]
pub extern "C" fn kuj_write_vcr(control: &mut Control, value: u64, beside: &mut u64) -> u32
    ensures { ((result, beside.new), control.new) ≡ given (vcr_written control.old value) }
{
    kujawian::kuj_write_vcr(control, value, beside)
}

#[unsafe(no_mangle)]
pub extern "C" fn kuj_write_vmr_low(control: &mut Control, value: u32, beside: &mut u64) -> u32
    ensures { ((result, beside.new), control.new) ≡ given (vmr_low_written control.old value) }
{
    kujawian::kuj_write_vmr_low(control, value, beside)
}

#[unsafe(no_mangle)]
pub extern "C" fn kuj_write_vmr_high(control: &mut Control, value: u32, beside: &mut u64) -> u32
    ensures { ((result, beside.new), control.new) ≡ given (vmr_high_written control.old value) }
{
    kujawian::kuj_write_vmr_high(control, value, beside)
}

#[unsafe(no_mangle)]
pub extern "C" fn kuj_write_vpsr(control: &mut Control, value: u32, beside: &mut u64) -> u32
    ensures { ((result, beside.new), control.new) ≡ given (vpsr_written control.old value) }
{
    kujawian::kuj_write_vpsr(control, value, beside)
}

#[unsafe(no_mangle)]
pub extern "C" fn kuj_execute(
    elements: &mut [u64; 1024],
    control: &mut [u64; 5],
    marks: &mut [u64; 16],
    opcode: u8,
    cntrl: u16,
    scalar: u64,
    base: u32,
    stride: u32,
    window: &mut [u8],
    origin: u64,
    beside: &mut u64,
) -> u32
    ensures { ((result, beside.new), elements.new, control.new, marks.new, window.new) ≡ executed control.old (executed_of (marked_of elements.old control.old marks.old) opcode cntrl scalar base stride window.old origin) }
{
    kujawian::kuj_execute(
        elements, control, marks, opcode, cntrl, scalar, base, stride, window, origin, beside,
    )
}

#[unsafe(no_mangle)]
pub extern "C" fn kuj_run(
    elements: &mut [u64; 1024],
    control: &mut [u64; 5],
    marks: &mut [u64; 16],
    opcodes: &[u8],
    cntrls: &[u16],
    scalars: &[u64],
    beside: &mut u64,
) -> u32
    ensures { ((result, beside.new), elements.new, control.new, marks.new) ≡ left control.old (queue_run (queue_of opcodes.now cntrls.now scalars.now) (marked_of elements.old control.old marks.old)) }
{
    kujawian::kuj_run(elements, control, marks, opcodes, cntrls, scalars, beside)
}

#[unsafe(no_mangle)]
pub extern "C" fn kuj_run_order(
    elements: &mut [u64; 1024],
    control: &mut [u64; 5],
    marks: &mut [u64; 16],
    opcodes: &[u8],
    cntrls: &[u16],
    scalars: &[u64],
    order: &[u64],
    beside: &mut u64,
) -> u32
    ensures straight { ((result, beside.new), elements.new, control.new, marks.new) ≡ left control.old (ordered_run (queue_of opcodes.now cntrls.now scalars.now) order.now (marked_of elements.old control.old marks.old)) }
    ensures walked { ((result, beside.new), elements.new, control.new, marks.new) ≡ left control.old (walked_run (queue_of opcodes.now cntrls.now scalars.now) order.now (marked_of elements.old control.old marks.old)) }
    ensures demand { length control.old ≡ 5 → AcceptedClaim (queue_of opcodes.now cntrls.now scalars.now) order.now (marked_of elements.old control.old marks.old) result beside.new (marked_of elements.new control.new marks.new) }
{
    kujawian::kuj_run_order(
        elements, control, marks, opcodes, cntrls, scalars, order, beside,
    )
}

#[unsafe(no_mangle)]
pub extern "C" fn kuj_save(
    elements: &[u64; 1024],
    control: &[u64; 5],
    file: &mut [u8],
    beside: &mut u64,
) -> u32
    ensures { ((result, beside.new), file.new) ≡ given (saving (state_of elements.now control.now) file.old) }
{
    kujawian::kuj_save(elements, control, file, beside)
}

#[unsafe(no_mangle)]
pub extern "C" fn kuj_load(
    elements: &mut [u64; 1024],
    control: &mut [u64; 5],
    marks: &mut [u64; 16],
    file: &[u8],
    beside: &mut u64,
) -> u32
    ensures { ((result, beside.new), elements.new, control.new, marks.new) ≡ left control.old (loading_marked file.now (marked_of elements.old control.old marks.old)) }
{
    kujawian::kuj_load(elements, control, marks, file, beside)
}

#[unsafe(no_mangle)]
pub extern "C" fn kuj_clear_marks(marks: &mut [u64; 16], beside: &mut u64) -> u32
    ensures { ((result, beside.new), marks.new) ≡ cleared }
{
    kujawian::kuj_clear_marks(marks, beside)
}

#[unsafe(no_mangle)]
pub extern "C" fn kuj_reading(
    elements: &[u64; 1024],
    control: &[u64; 5],
    reg: u32,
    element: u32,
    kind: u32,
    kind_read: &mut u64,
    bits: &mut u64,
    beside: &mut u64,
) -> u32
    ensures { ((result, beside.new), kind_read.new, bits.new) ≡ field_read (state_of elements.now control.now) reg element kind kind_read.old bits.old }
{
    kujawian::kuj_reading(
        elements, control, reg, element, kind, kind_read, bits, beside,
    )
}
