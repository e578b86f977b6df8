// Words to longwords, and longwords to words.
ghost use Rattle.std.specs.Prelude.{◌≡◌, ◌+◌, ◌-◌, ◌*◌, ◌^◌, ◌<◌, ◌≤◌, ◌==◌};
ghost use Rattle.std.specs.Int.{from_bool};
ghost use Rattle.numbers.specs.Choice.{pick};
ghost use Rattle.numbers.specs.Signed.{low32, overflows};
ghost use Rattle.floating.specs.Format.{F};
ghost use Rattle.floating.specs.Exact.{integer};
ghost use Rattle.floating.specs.Delivered.{delivered};
ghost use Rattle.floating.specs.Operations.{to_longword, from_longword};
ghost use Rattle.floating.specs.Working.{whole_by, StandsFor};

use crate::{Delivery, Flagged, deliver, format, round, word};
use numbers::halves;

// m * 2 ^ e units, made whole, where the places of the fraction are cut off: a longword holds it.
fn whole_below(e: u32, m: u64, rounded: bool) -> u64
    requires { (e ≤ F.bits + F.excess) × (m < 2 ^ F.bits) }
    ensures { (result ≡ whole_by (from_bool rounded) (m * 2 ^ e) (2 ^ (F.bits + F.excess))) × (result ≤ 2 ^ F.bits) }
{
    (round::cut_down(m * 2, format::F_UNIT - e) + u64::from(rounded)) / 2
}

// The same where there is no fraction. Moved up by 32 places or more it has zeros for its low 32 bits, and 2 ^ 32 stands for it.
fn whole_above(e: u32, m: u64) -> u64
    requires { (F.bits + F.excess ≤ e) × (e ≤ F.largest) × (2 ^ (F.bits - 1) ≤ m) × (m < 2 ^ F.bits) }
    ensures { StandsFor result (m * 2 ^ (e - (F.bits + F.excess))) }
{
    if e < format::F_LOW_ZERO {
        round::raised(m, e - format::F_UNIT)
    } else {
        4294967296
    }
}

// The low 32 bits of n, or of minus n.
fn longword_of(s: u32, n: u64) -> u32
    ensures { result ≡ low32 (integer s n) }
{
    let low = halves::longword(n);
    word::chosen(s == 1, low.wrapping_neg(), low)
}

// n, or minus n, is no longword.
fn is_wide(s: u32, n: u64) -> bool
    requires { s < 2 }
    ensures { result ≡ overflows (integer s n) }
{
    2147483647 + u64::from(s) < n
}

// Made whole: to the nearest number, or without its fraction.
pub fn to_longword(word: u32, rounded: bool, exc: bool) -> Flagged
    ensures { result ≡ to_longword F (whole_by (from_bool rounded)) exc word }
{
    let e = word::exponent_of(word);
    let s = word::sign_of(word);
    if e == 0 {
        return Flagged {
            value: 0,
            types: s * 4,
        };
    }
    let m = word::significand_of(word);
    if e <= format::F_UNIT {
        return Flagged {
            value: longword_of(s, whole_below(e, m, rounded)),
            types: 0,
        };
    }
    let n = whole_above(e, m);
    Flagged {
        value: longword_of(s, n),
        types: word::chosen(exc & is_wide(s, n), 32, 0),
    }
}

// A whole number of the sign s and the size n, which is not zero.
fn word_of_size(s: u32, n: u64) -> u32
    requires { (s < 2) × (0 < n) × (n ≤ 2147483648) }
    ensures { delivered F (record { sign = s; num = n; den = 1 }) ≡ Delivery.Word result }
{
    let z = round::zeros_of(n);
    let m = round::near_of(round::raised(n, z));
    deliver::word_of(s, deliver::packed_of(format::F_WHOLE_UP - z, m))
}

// The size of a longword of the sign s.
fn size_of(s: u32, l: u64) -> u64
    requires { l < 4294967296 }
    ensures { result ≡ pick (s == 1) (4294967296 - l) l }
{
    if s == 1 { 4294967296 - l } else { l }
}

pub fn from_longword(l: u32) -> u32
    ensures { from_longword F l ≡ Delivery.Word result }
{
    if l == 0 {
        return 0;
    }
    let s = l / 2147483648;
    word_of_size(s, size_of(s, u64::from(l)))
}
