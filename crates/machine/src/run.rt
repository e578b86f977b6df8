// A run under way: what is noted in it, and its end.
ghost use Rattle.std.specs.Prelude.{◌≡◌, ℕ, List};
ghost use Rattle.state.specs.Marks.{also_marked};
ghost use Rattle.machine.specs.Run.{added, joined, ended, gathered_in, starting};
ghost use Rattle.machine.specs.Step.{notes as notes_of};

use crate::{Noted, Progress};
use numbers::bits;
use state::Control;

// A run that begins.
pub fn begin(control: Control) -> Progress
    ensures { result ≡ starting control }
{
    Progress {
        control,
        noted: Noted {
            vaer: 0,
            recorded: false,
        },
    }
}

// What VAER gets where these types were recorded.
#[tactic(auto, unfolding(crate::specs::Step::notes))]
pub fn note(register: u64, types: u64) -> u64
    ensures { result ≡ notes_of register types }
{
    if types == 0 { 0 } else { types | register }
}

// What was noted, and what VAER gets beside it.
#[tactic(auto, unfolding(crate::specs::Run::joined))]
pub fn gather(noted: Noted, notes: u64) -> Noted
    ensures { (m : List ℕ) (register wrote : ℕ) → gathered_in (also_marked m register wrote) result ≡ joined (gathered_in m noted) (added notes register wrote) }
{
    Noted {
        vaer: noted.vaer | notes,
        recorded: noted.recorded | (notes != 0),
    }
}

// The end of a run: VAER has what was gathered; VEN is cleared and AEX set if anything was recorded.
#[tactic(auto, unfolding(crate::specs::Run::ended))]
pub fn end(run: Progress) -> Control
    ensures { result ≡ ended run.control run.noted.vaer run.noted.recorded }
{
    let mut control = run.control;
    let noted = run.noted;
    control.vaer = control.vaer | noted.vaer;
    if noted.recorded {
        control.vpsr = bits::with_bit(bits::with_bit(control.vpsr, 0, 0), 7, 1);
    }
    control
}
