// Readings for panel fields.
#![tactic(auto, unfolding(crate::specs::Panel::field_answer))]

ghost use Rattle.std.specs.Prelude.{◌≡◌, ◌<◌};
ghost use Rattle.numbers.specs.Halves.{low};
ghost use Rattle.state.specs.State.{state as state_of};
ghost use Rattle.panel.specs.Panel.{is_field, ShownAs, Answered};

use floating::Reading;
use state::answer::Refusal;
use state::{Control, Element, Register};

// There is such a field.
fn is_field(register: Register, element: Element, kind: u32) -> bool
    ensures { result ≡ is_field register.0 element.0 kind }
{
    (register.0 < 16) & ((element.0 < 64) & (kind < 2))
}

// A word as F_floating or as a longword.
fn shown(kind: u32, word: u32) -> Reading
    requires { kind < 2 }
    ensures { ShownAs kind word result }
{
    if kind == 0 {
        return floating::read_floating(word);
    }
    floating::read_longword(word)
}

// The reading of an element, or why there is none.
pub fn reading(
    elements: &[u64; 1024],
    control: Control,
    register: Register,
    element: Element,
    kind: u32,
) -> Result<Reading, Refusal>
    ensures { Answered (state_of elements.now control) register.0 element.0 kind result }
{
    if !state::in_range(control) {
        return Err(Refusal::OutOfRange);
    }
    if !is_field(register, element, kind) {
        return Err(Refusal::NoSuchField);
    }
    let at = state::place(register, element);
    Ok(shown(kind, numbers::halves::longword(elements[at])))
}
