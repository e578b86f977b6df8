// The operands of an element.
ghost use Rattle.std.specs.Prelude.{◌≡◌, ◌<◌};
ghost use Rattle.state.specs.Elements.{at};
ghost use Rattle.machine.specs.Working.{operand_at};

use opcodes::Field;
use state::{Element, Register};

// An element of the register that a field names.
pub fn element_of(elements: &[u64; 1024], field: Field, i: Element) -> u64
    requires { (field.0 < 16) × (i.0 < 64) }
    ensures { result ≡ at elements.now field.0 i.0 }
{
    elements[state::place(Register::from(field), i)]
}

// The first operand by the form: a scalar, or Va's element, which is read in its turn. The choice is one for each element; the
// compiler takes it out of the loops.
pub fn first(elements: &[u64; 1024], scalar: bool, x: u64, va: Field, i: Element) -> u64
    requires { (va.0 < 16) × (i.0 < 64) }
    ensures { result ≡ operand_at scalar x va.0 elements.now i.0 }
{
    let own = element_of(elements, va, i);
    if scalar { x } else { own }
}
