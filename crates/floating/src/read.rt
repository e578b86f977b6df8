// The readings of a word.
ghost use Rattle.std.specs.Prelude.{◌≡◌, ◌+◌, ◌%◌, ◌^◌, ◌<◌, ◌≤◌, ◌==◌, to_bits};
ghost use Rattle.std.specs.Float.{binary64};
ghost use Rattle.std.specs.Float.Ieee.Exact.{HasValue};
ghost use Rattle.floating.specs.Format.{F, exponent_of};
ghost use Rattle.floating.specs.Reading.{Shows, bits_of};
ghost use Rattle.floating.specs.Working.{Reads};

use crate::{Reading, format, word};

// 2 ^ e units, with the sign s.
fn scale_of(s: u32, e: u32) -> f64
    requires { (s < 2) × (e ≤ F.largest) }
    ensures { HasValue result (s == 1) (2 ^ e) (2 ^ (F.bits + F.excess)) }
{
    f64::from_bits(u64::from(s * 2048 + e + format::F_DOUBLE) * 4503599627370496)
}

// The significand as a whole number, times a power of two with the sign: each operation is exact.
fn number_of(word: u32) -> f64
    requires { 0 < exponent_of F word }
    ensures { Reads F word result }
{
    let e = word::exponent_of(word);
    let m = format::F_FIRST + word::fraction_of(word);
    m as f64 * scale_of(word::sign_of(word), e)
}

fn code_of(word: u32) -> u8
    ensures { result ≡ word % 16 }
{
    (word % 16) as u8
}

pub fn floating(word: u32) -> Reading
    ensures { Shows F word result }
{
    if word::exponent_of(word) == 0 {
        if word::sign_of(word) == 1 {
            return Reading::Reserved(code_of(word));
        }
        return Reading::Number(0.0);
    }
    Reading::Number(number_of(word))
}

// The bits of a binary64 number; a word has no NaN.
fn number_bits(x: f64) -> u64
    ensures { result ≡ to_bits binary64 x }
{
    if x.is_nan() {
        0x7ff8_0000_0000_0000
    } else {
        x.to_bits()
    }
}

pub fn bits_of(r: Reading) -> u64
    ensures { result ≡ bits_of r }
{
    match r {
        Reading::Number(x) => number_bits(x),
        Reading::Longword(i) => u64::from(i.cast_unsigned()),
        Reading::Reserved(c) => u64::from(c),
    }
}
