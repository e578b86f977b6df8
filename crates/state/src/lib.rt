// The state: register and element numbers, and the control record with its range test. And the marks beside it, and what every call gives back.
#![tactic(auto)]

ghost use Rattle.std.specs.Prelude.{◌≡◌, ◌<◌};
ghost use Rattle.state.specs.State.{place_of, length_in_range, vaer_in_range, vpsr_in_range, in_range, enabled as enabled_of};

pub mod answer;
pub mod marks;

// The number of a vector register, 0 to 15. It is as wide as an index, so that any number a caller names is tested and none is cut.
#[derive(Clone, Copy)]
pub struct Register(pub usize);

// The number of an element, 0 to 63, as wide.
#[derive(Clone, Copy)]
pub struct Element(pub usize);

// The control registers, in the order of the saved records. Each is 64 bits wide, so that a caller
// can hand over any number, and one that is out of range is refused instead of cut. C has the same record.
#[repr(C)]
#[derive(Clone, Copy, Default)]
pub struct Control {
    pub vlr: u64,
    pub vmr: u64,
    pub vcr: u64,
    pub vaer: u64,
    pub vpsr: u64,
}

// Where an element stands among the 1,024.
pub fn place(register: Register, element: Element) -> usize
    requires { (register.0 < 16) × (element.0 < 64) }
    ensures { result ≡ place_of register.0 element.0 }
{
    register.0 * 64 + element.0
}

// VLR or VCR is one that a state may hold.
pub fn length_in_range(n: u64) -> bool
    ensures { result ≡ length_in_range n }
{
    n <= 64
}

// VAER is one that a state may hold.
pub fn vaer_in_range(v: u64) -> bool
    ensures { result ≡ vaer_in_range v }
{
    (v < 4294967296) & (v / 16 % 2 == 0) & (v / 64 % 1024 == 0)
}

// VPSR is one that a state may hold.
pub fn vpsr_in_range(v: u64) -> bool
    ensures { result ≡ vpsr_in_range v }
{
    (v < 256) & (v / 2 % 64 == 0)
}

// The control registers are ones that a state may hold.
pub fn in_range(control: Control) -> bool
    ensures { result ≡ in_range control }
{
    length_in_range(control.vlr)
        & length_in_range(control.vcr)
        & vaer_in_range(control.vaer)
        & vpsr_in_range(control.vpsr)
}

// VEN: the vector processor is enabled.
pub fn enabled(control: Control) -> bool
    ensures { result ≡ enabled_of control }
{
    control.vpsr % 2 == 1
}
