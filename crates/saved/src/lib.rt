// Saved states: 1,029 records of 16 bytes.
#![tactic(auto)]

mod record;

ghost use Rattle.std.specs.Prelude.{◌≡◌, ◌+◌, ◌*◌, ◌<◌, ◌≤◌, length};
ghost use Rattle.state.specs.Answer.{answered};
ghost use Rattle.state.specs.Outcome.{outcome, control_left};
ghost use Rattle.state.specs.State.{state as state_of};
ghost use Rattle.numbers.specs.Over.{over};
ghost use Rattle.saved.specs.File.{contents_of, file_of};
ghost use Rattle.saved.specs.Save.{saving};
ghost use Rattle.saved.specs.Load.{record_at, contents_in, leading as leading_of, elements_in, control_in, loading};

use crate::record::{RECORD_SIZE, VAER, VCR, VLR, VMR, VPSR};
use state::Control;
use state::answer::{Answer, Refusal};

// The records of a file: one for each element, and one for each control register.
const RECORDS: usize = 1029;

// The contents of record k of a state.
#[tactic(auto, unfolding(crate::specs::File::contents_of))]
fn contents_of(elements: &[u64; 1024], control: Control, k: usize) -> u64
    requires { k < 1029 }
    ensures { result ≡ contents_of (state_of elements.now control) k }
{
    if k < VLR {
        return elements[k];
    }
    match k {
        VLR => control.vlr,
        VMR => control.vmr,
        VCR => control.vcr,
        VAER => control.vaer,
        _ => control.vpsr,
    }
}

// Writes all records into bytes that have room for them.
fn put_records(elements: &[u64; 1024], control: Control, file: &mut [u8])
    requires { 16464 ≤ length file.old }
    ensures { file.new ≡ over file.old 0 (file_of (state_of elements.now control)) }
{
    for k in 0..RECORDS {
        let at = k * RECORD_SIZE;
        let end = at + RECORD_SIZE;
        file[at..end].copy_from_slice(&record::bytes(k as u16, contents_of(elements, control, k)));
    }
}

// Saves a state into lent bytes.
pub fn save(elements: &[u64; 1024], control: Control, file: &mut [u8]) -> Answer
    ensures { outcome result file.new ≡ saving (state_of elements.now control) file.old }
{
    if !state::in_range(control) {
        return Err(Refusal::OutOfRange);
    }
    if file.len() < 16464 {
        return Err(Refusal::BadFile(file.len() as u64 / 16));
    }
    put_records(elements, control, file);
    Ok(0)
}

// How many records come before the first that is not good.
fn leading(file: &[u8]) -> usize
    ensures { result ≡ leading_of 1029 file.now }
{
    let (records, _) = file.as_chunks();
    for (k, record) in records.iter().enumerate() {
        if k == RECORDS || !record::good(record, k) {
            return k;
        }
    }
    records.len()
}

// The contents of record k of a file.
fn contents_at(file: &[u8], k: usize) -> u64
    requires { (k < 1029) × (16464 ≤ length file.now) }
    ensures { result ≡ contents_in (record_at file.now k) }
{
    let (records, _) = file.as_chunks();
    record::contents(&records[k])
}

// Replaces the elements by those of a whole file.
fn fill(elements: &mut [u64; 1024], file: &[u8])
    requires { 16464 ≤ length file.now }
    ensures { elements.new ≡ elements_in 1024 file.now elements.old }
{
    for (k, element) in elements.iter_mut().enumerate() {
        *element = contents_at(file, k);
    }
}

// The control record of a whole file.
fn control_in(file: &[u8]) -> Control
    requires { 16464 ≤ length file.now }
    ensures { result ≡ control_in file.now }
{
    Control {
        vlr: contents_at(file, VLR),
        vmr: contents_at(file, VMR),
        vcr: contents_at(file, VCR),
        vaer: contents_at(file, VAER),
        vpsr: contents_at(file, VPSR),
    }
}

// Loads a state from the bytes of a file.
pub fn load(elements: &mut [u64; 1024], control: Control, file: &[u8]) -> Result<Control, Refusal>
    ensures { outcome (answered result) (state_of elements.new (control_left control result)) ≡ loading file.now (state_of elements.old control) }
{
    let k = leading(file);
    if (k == 1029) & (file.len() <= 16464) {
        fill(elements, file);
        return Ok(control_in(file));
    }
    Err(Refusal::BadFile(k as u64))
}
