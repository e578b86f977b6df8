// Control moves: the control record goes in by value, and a write gives it back.
#![tactic(auto)]

ghost use Rattle.std.specs.Prelude.{◌≡◌};
ghost use Rattle.state.specs.Outcome.{ended};
ghost use Rattle.control.specs.Moves.{read_when, read_enabled, write_when, write_enabled, vlr_read, vcr_read, vmr_low_read, vmr_high_read, vaer_read, vpsr_read, vlr_written, vcr_written, vmr_low_written, vmr_high_written, vpsr_accepted, with_status, after_reset, after_aex, after_ven, vpsr_taken, vpsr_written};

use numbers::halves;
use state::Control;
use state::answer::{Answer, Refusal};

// A read, refused where the processor's present state does not allow it.
#[tactic(auto, unfolding(crate::specs::Moves::read_when))]
fn read_when(readable: bool, control: Control, value: u64) -> Answer
    ensures { result ≡ read_when readable control value }
{
    if !state::in_range(control) {
        return Err(Refusal::OutOfRange);
    }
    if !readable {
        return Err(Refusal::Disabled);
    }
    Ok(value)
}

// A read that is refused while the processor is disabled.
fn read_enabled(control: Control, value: u64) -> Answer
    ensures { result ≡ read_enabled control value }
{
    read_when(state::enabled(control), control, value)
}

pub fn read_vlr(control: Control) -> Answer
    ensures { result ≡ vlr_read control }
{
    read_enabled(control, control.vlr)
}

pub fn read_vcr(control: Control) -> Answer
    ensures { result ≡ vcr_read control }
{
    read_enabled(control, control.vcr)
}

pub fn read_vmr_low(control: Control) -> Answer
    ensures { result ≡ vmr_low_read control }
{
    read_enabled(control, halves::low(control.vmr))
}

pub fn read_vmr_high(control: Control) -> Answer
    ensures { result ≡ vmr_high_read control }
{
    read_enabled(control, halves::high(control.vmr))
}

pub fn read_vaer(control: Control) -> Answer
    ensures { result ≡ vaer_read control }
{
    read_when(true, control, control.vaer)
}

pub fn read_vpsr(control: Control) -> Answer
    ensures { result ≡ vpsr_read control }
{
    read_when(true, control, control.vpsr)
}

// A write: next takes the place of control, unless the processor's present state does not allow it
// or the value is refused.
#[tactic(auto, unfolding(crate::specs::Moves::write_when, state::specs::Outcome::after_refusal))]
fn write_when(
    writable: bool,
    accepted: bool,
    control: Control,
    next: Control,
) -> Result<Control, Refusal>
    ensures { ended control result ≡ write_when writable accepted control next }
{
    if !state::in_range(control) {
        return Err(Refusal::OutOfRange);
    }
    if !writable {
        return Err(Refusal::Disabled);
    }
    if !accepted {
        return Err(Refusal::ValueRefused);
    }
    Ok(next)
}

// A write that is refused while the processor is disabled.
fn write_enabled(accepted: bool, control: Control, next: Control) -> Result<Control, Refusal>
    ensures { ended control result ≡ write_enabled accepted control next }
{
    write_when(state::enabled(control), accepted, control, next)
}

// The values of VLR and VCR come in as wide as the record keeps them, so that they are tested before
// anything is cut off.
pub fn write_vlr(control: Control, vlr: u64) -> Result<Control, Refusal>
    ensures { ended control result ≡ vlr_written control vlr }
{
    let next = Control { vlr, ..control };
    write_enabled(state::length_in_range(vlr), control, next)
}

pub fn write_vcr(control: Control, vcr: u64) -> Result<Control, Refusal>
    ensures { ended control result ≡ vcr_written control vcr }
{
    let next = Control { vcr, ..control };
    write_enabled(state::length_in_range(vcr), control, next)
}

pub fn write_vmr_low(control: Control, value: u32) -> Result<Control, Refusal>
    ensures { ended control result ≡ vmr_low_written control value }
{
    let next = Control {
        vmr: halves::with_low(control.vmr, value),
        ..control
    };
    write_enabled(true, control, next)
}

pub fn write_vmr_high(control: Control, value: u32) -> Result<Control, Refusal>
    ensures { ended control result ≡ vmr_high_written control value }
{
    let next = Control {
        vmr: halves::with_high(control.vmr, value),
        ..control
    };
    write_enabled(true, control, next)
}

// VPSR takes this value.
fn vpsr_accepted(v: u64) -> bool
    ensures { result ≡ vpsr_accepted v }
{
    let setting = v % 16;
    ((setting <= 4) | (setting == 8) | (setting == 9))
        & (v / 16 % 2 == 0)
        & (v / 256 % 65536 == 0)
        & (v / 67108864 % 32 == 0)
}

// The record with other exception and status registers.
fn with_status(control: Control, vaer: u64, vpsr: u64) -> Control
    ensures { result ≡ with_status control vaer vpsr }
{
    Control {
        vaer,
        vpsr,
        ..control
    }
}

// A one in bit 1 resets.
fn after_reset(control: Control, v: u64) -> Control
    ensures { result ≡ after_reset control v }
{
    if v / 2 % 2 == 1 {
        with_status(control, 0, 0)
    } else {
        control
    }
}

// A one in bit 7 clears AEX.
fn after_aex(control: Control, v: u64) -> Control
    ensures { result ≡ after_aex control v }
{
    let vpsr = control.vpsr;
    if v / 128 % 2 == 1 {
        with_status(control, 0, vpsr - vpsr / 128 % 2 * 128)
    } else {
        control
    }
}

// VEN becomes bit 0.
fn after_ven(control: Control, v: u64) -> Control
    ensures { result ≡ after_ven control v }
{
    with_status(control, control.vaer, control.vpsr / 2 * 2 + v % 2)
}

// The record once VPSR has taken a value.
#[tactic(auto, unfolding(crate::specs::Moves::vpsr_taken))]
fn vpsr_taken(control: Control, v: u64) -> Control
    ensures { result ≡ vpsr_taken control v }
{
    after_ven(after_aex(after_reset(control, v), v), v)
}

pub fn write_vpsr(control: Control, value: u32) -> Result<Control, Refusal>
    ensures { ended control result ≡ vpsr_written control value }
{
    let v = value as u64;
    write_when(true, vpsr_accepted(v), control, vpsr_taken(control, v))
}
