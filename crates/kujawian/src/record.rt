// The control record as five numbers: VLR, VMR, VCR, VAER, VPSR.
ghost use Rattle.std.specs.Prelude.{◌≡◌};
ghost use Rattle.state.specs.Answer.{answered};
ghost use Rattle.state.specs.Outcome.{outcome, control_left};
ghost use Rattle.kujawian.specs.Face.{control_of, control_into};

use state::Control;
use state::answer::{Answer, Refusal};

// The record that the numbers hold.
#[tactic(auto, unfolding(crate::specs::Face::control_of))]
pub(crate) fn of(control: &[u64; 5]) -> Control
    ensures { result ≡ control_of control.now }
{
    Control {
        vlr: control[0],
        vmr: control[1],
        vcr: control[2],
        vaer: control[3],
        vpsr: control[4],
    }
}

// Stores a record in the numbers.
#[tactic(auto, unfolding(crate::specs::Face::control_into))]
fn store(control: &mut [u64; 5], next: Control)
    ensures { control.new ≡ control_into control.old next }
{
    control[0] = next.vlr;
    control[1] = next.vmr;
    control[2] = next.vcr;
    control[3] = next.vaer;
    control[4] = next.vpsr;
}

// The end of a call that alters the record: the new one is stored, and nothing is read. A refusal stores nothing.
#[tactic(auto, using(crate::proofs::Stored::stored_back), unfolding(state::specs::Outcome::after_refusal))]
pub(crate) fn settle(after: Result<Control, Refusal>, control: &mut [u64; 5]) -> Answer
    ensures { outcome result control.new ≡ outcome (answered after) (control_into control.old (control_left (control_of control.old) after)) }
{
    store(control, after?);
    Ok(0)
}
