// The last stage of every result: rounded to the format, judged and packed into a word.
ghost use Rattle.std.specs.Prelude.{◌≡◌, ◌+◌, ◌-◌, ◌*◌, ◌%◌, ◌^◌, ◌<◌, ◌≤◌};
ghost use Rattle.floating.specs.Format.{F};
ghost use Rattle.floating.specs.Delivered.{delivered};
ghost use Rattle.floating.specs.Operations.{answered};
ghost use Rattle.floating.specs.Working.{swapped, magnitudes, packed, placed, settled};

use crate::{Flagged, format, round, word};

// The exponent field e, and below it the fraction of a rounded significand m, in 32 bits. A carry out of the fraction adds one to the field.
pub fn packed_of(e: u32, m: u32) -> u32
    requires { (e < 2 * (F.largest + 1)) × (2 ^ (F.bits - 1) ≤ m) × (m ≤ 2 ^ F.bits) }
    ensures { result ≡ packed F e m % 4294967296 }
{
    (e * format::F_FIRST).wrapping_add(m - format::F_FIRST)
}

pub fn word_of(s: u32, magnitude: u32) -> u32
    requires { (s < 2) × (magnitude < magnitudes F) }
    ensures { result ≡ swapped (s * magnitudes F + magnitude) }
{
    word::swapped(s * format::F_MAGNITUDES + magnitude)
}

// The one place where the range is judged, after rounding (document 02, Q-2): e less down is the exponent field before rounding, and m the rounded significand.
fn judged(exc: bool, s: u32, e: u32, down: u32, m: u32) -> Flagged
    requires { (s < 2) × (down ≤ e + F.largest) × (e < down + 2 * F.largest) × (down < 1000) × (2 ^ (F.bits - 1) ≤ m) × (m ≤ 2 ^ F.bits) }
    ensures { result ≡ answered exc (settled F s e down m) }
{
    // 32 bits hold twice the fields. One below zero is that much more, far above the range; a carry from -1 leads to the magnitude 0.
    let magnitude = packed_of(
        (e + format::F_FIELDS_HELD - down) % format::F_FIELDS_HELD,
        m,
    );
    // Counted from the smallest number, what is below it lies above too: one test finds both ends, and e and down tell which it is.
    let past = magnitude.wrapping_sub(format::F_FIRST);
    if format::F_NUMBERS <= past {
        if e <= down {
            return Flagged {
                value: word::chosen(exc, 0x8001, 0),
                types: word::chosen(exc, 1, 0),
            };
        }
        return Flagged {
            value: 0x8008,
            types: 8,
        };
    }
    Flagged {
        value: word_of(s, magnitude),
        types: 0,
    }
}

// x, whose first digits of 64 stand before the point, times 2 ^ (e - down) units: moved up to 64 digits, rounded, judged and packed.
pub fn of_digits(exc: bool, s: u32, e: u32, down: u32, x: u64) -> Flagged
    requires { (s < 2) × (down + 63 ≤ e + F.largest) × (e < down + 2 * F.largest) × (down < 900) × (0 < x) }
    ensures { result ≡ answered exc (delivered F (placed F 64 s x e down)) }
{
    let z = round::zeros_of(x);
    judged(exc, s, e, down + z, round::near_of(round::raised(x, z)))
}

// The same of digits that are one more than are kept.
pub fn of_one_more(exc: bool, s: u32, e: u32, down: u32, x: u32) -> Flagged
    requires { (s < 2) × (down ≤ e + F.largest) × (e < down + 2 * F.largest) × (down < 1000) × (2 ^ F.bits ≤ x) × (x < 2 ^ (F.bits + 1)) }
    ensures { result ≡ answered exc (delivered F (placed F (F.bits + 1) s x e down)) }
{
    judged(exc, s, e, down, round::nearest(x))
}

// The same of digits that are one or two more than are kept.
pub fn of_two_more(exc: bool, s: u32, e: u32, down: u32, x: u32) -> Flagged
    requires { (s < 2) × (down + 1 ≤ e + F.largest) × (e < down + 2 * F.largest) × (down < 900) × (2 ^ F.bits ≤ x) × (x < 2 ^ (F.bits + 2)) }
    ensures { result ≡ answered exc (delivered F (placed F (F.bits + 2) s x e down)) }
{
    let z = round::places_short(x);
    judged(
        exc,
        s,
        e,
        down + z,
        round::nearest_of_two(round::doubled_once(x, z)),
    )
}
