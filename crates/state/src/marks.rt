// Marks: which elements were written. Beside the state stands one word for each register; its bit i is element i's.
ghost use Rattle.std.specs.Prelude.{◌≡◌, ◌<◌};
ghost use Rattle.state.specs.Marks.{also_marked, no_marks, all_marks};

use crate::Register;

// The elements of a set are marked, beside those that are already.
pub fn add(marks: &mut [u64; 16], register: Register, which: u64)
    requires { register.0 < 16 }
    ensures { marks.new ≡ also_marked marks.old register.0 which }
{
    let r = register.0;
    marks[r] = marks[r] | which;
}

// No element is marked.
pub fn clear(marks: &mut [u64; 16])
    ensures { marks.new ≡ no_marks }
{
    *marks = [0u64; 16];
}

// Every element is marked.
pub fn mark_all(marks: &mut [u64; 16])
    ensures { marks.new ≡ all_marks }
{
    *marks = [18446744073709551615u64; 16];
}
