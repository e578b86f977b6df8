// Longword arithmetic, compare and shifts of one element.
ghost use Rattle.std.specs.Prelude.{◌≡◌, ◌&&◌, ◌<◌, ◌^◌};
ghost use Rattle.numbers.specs.Choice.{pick};
ghost use Rattle.longword.specs.Longword.{sum_of, difference_of, product_of, compares, shifted_right, shifted_left};
ghost use Rattle.numbers.specs.Halves.{with_low};
ghost use Rattle.element.specs.Receives.{longword_out, bit_out, quiet, out};

use crate::Out;
use numbers::halves;

// A 32-bit result in the low half, and bit 5 where it overflowed and EXC is set.
fn place(exc: bool, overflow: bool, c: u64, value: u64) -> Out
    requires { value < 2 ^ 32 }
    ensures { result ≡ out (with_low c value) (pick (exc && overflow) 32 0) }
{
    Out {
        value: c / 4294967296 * 4294967296 + value,
        types: if exc & overflow { 32 } else { 0 },
    }
}

pub fn add(exc: bool, a: u64, b: u64, c: u64) -> Out
    ensures { result ≡ longword_out exc c (sum_of a b) }
{
    place(exc, longword::sum_overflows(a, b), c, longword::sum(a, b))
}

pub fn subtract(exc: bool, a: u64, b: u64, c: u64) -> Out
    ensures { result ≡ longword_out exc c (difference_of a b) }
{
    place(
        exc,
        longword::difference_overflows(a, b),
        c,
        longword::difference(a, b),
    )
}

pub fn multiply(exc: bool, a: u64, b: u64, c: u64) -> Out
    ensures { result ≡ longword_out exc c (product_of a b) }
{
    place(
        exc,
        longword::product_overflows(a, b),
        c,
        longword::product(a, b),
    )
}

// The mask bit.
pub fn compare(relation: u64, a: u64, b: u64) -> Out
    ensures { result ≡ bit_out (compares relation a b) 0 }
{
    crate::mask_bit(longword::compare(relation, a, b), 0)
}

pub fn shift_right(a: u64, b: u64, c: u64) -> Out
    ensures { result ≡ quiet (with_low c (shifted_right a b)) }
{
    place(false, false, c, longword::shift_right(a, b))
}

pub fn shift_left(a: u64, b: u64, c: u64) -> Out
    ensures { result ≡ quiet (with_low c (shifted_left a b)) }
{
    place(false, false, c, longword::shift_left(a, b))
}
