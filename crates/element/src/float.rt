// F_floating work of one element.
ghost use Rattle.std.specs.Prelude.{◌≡◌};
ghost use Rattle.numbers.specs.Halves.{low};
ghost use Rattle.floating.specs.Format.{F};
ghost use Rattle.floating.specs.Operations.{answered, product, quotient, compared};
ghost use Rattle.element.specs.Receives.{floating_out, compared_out, converted};

use crate::Out;
use numbers::halves;
use numbers::halves::longword;

// A 32-bit result in the low half, with what it recorded.
pub fn place(c: u64, x: floating::Flagged) -> Out
    ensures { result ≡ floating_out c x }
{
    Out {
        value: halves::with_low(c, x.value),
        types: x.types as u64,
    }
}

pub fn multiply(exc: bool, a: u64, b: u64, c: u64) -> Out
    ensures { result ≡ floating_out c (answered exc (product F (low a) (low b))) }
{
    place(c, floating::multiply(longword(a), longword(b), exc))
}

pub fn divide(exc: bool, a: u64, b: u64, c: u64) -> Out
    ensures { result ≡ floating_out c (answered exc (quotient F (low a) (low b))) }
{
    place(c, floating::divide(longword(a), longword(b), exc))
}

// The mask bit.
pub fn compare(relation: u64, a: u64, b: u64) -> Out
    ensures { result ≡ compared_out (compared F relation (low a) (low b)) }
{
    let x = floating::compare((relation % 8) as u32, longword(a), longword(b));
    crate::mask_bit(x.bit, x.types as u64)
}

// The conversion of a source's bits <31:0>: 5, 4 or 1. Decoding refused any other, which would be done as 1.
fn conversion_of(conversion: u64, exc: bool, b: u64) -> floating::Flagged
    ensures { result ≡ converted conversion exc b }
{
    let word = longword(b);
    match conversion {
        5 => floating::rounded_longword(word, exc),
        4 => floating::truncated_longword(word, exc),
        _ => floating::from_longword(word),
    }
}

pub fn convert(conversion: u64, exc: bool, b: u64, c: u64) -> Out
    ensures { result ≡ floating_out c (converted conversion exc b) }
{
    place(c, conversion_of(conversion, exc, b))
}
