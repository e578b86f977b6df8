// The sum and the difference of two words.
ghost use Rattle.std.specs.Prelude.{◌≡◌, ◌+◌, ◌-◌, ◌*◌, ◌/◌, ◌^◌, ◌<◌, ◌≤◌, Bool, true, false};
ghost use Rattle.numbers.specs.Choice.{pick};
ghost use Rattle.floating.specs.declared.Delivery.TheVariants.{Word};
ghost use Rattle.floating.specs.Format.{F, sign_of};
ghost use Rattle.floating.specs.Exact.{units, size_of, together};
ghost use Rattle.floating.specs.Delivered.{delivered};
ghost use Rattle.floating.specs.Operations.{answered};
ghost use Rattle.floating.specs.Working.{magnitudes, size_at, joint, combined, is_special};

use crate::{Flagged, deliver, format, round, word};

// The whole part of a + b, or with minus of a - b, with two digits more than are kept below a's last: it has more digits than are kept or is 0, so that
// it alone decides the rounding. What is cut off of b leaves one unit less of a difference.
fn aligned(minus: bool, a: u64, b: u64, d: u32) -> u64
    requires { (2 ^ (F.bits - 1) ≤ a) × (a < 2 ^ F.bits) × (2 ^ (F.bits - 1) ≤ b) × (b < 2 ^ F.bits) × (b ≤ a * 2 ^ d) }
    ensures { result ≡ joint minus (a * 2 ^ d) b * 2 ^ (F.bits + 2) / 2 ^ d }
{
    let o = u64::from(minus);
    let c = o + round::cut_down(b * format::F_BELOW_UNIT - o, d);
    if minus {
        a * format::F_BELOW_UNIT - c
    } else {
        a * format::F_BELOW_UNIT + c
    }
}

// Two numbers with the magnitudes k and l, k no smaller: the sum, or with minus the difference, with the sign s.
fn add_ordered(exc: bool, s: u32, minus: bool, k: u32, l: u32) -> Flagged
    requires { (s < 2) × (2 ^ (F.bits - 1) ≤ l) × (l ≤ k) × (k < magnitudes F) }
    ensures { result ≡ answered exc (delivered F (units F s (joint minus (size_at F k) (size_at F l)))) }
{
    let e = k / format::F_FIRST;
    let a = u64::from(format::F_FIRST + k % format::F_FIRST);
    let b = u64::from(format::F_FIRST + l % format::F_FIRST);
    let x = aligned(minus, a, b, e - l / format::F_FIRST);
    if x == 0 {
        return Flagged { value: 0, types: 0 }; // and no minus zero
    }
    deliver::of_digits(exc, s, e + format::F_SUM_UP, 0, x)
}

// Two numbers with the signs s and t and the magnitudes a and b.
fn add_sizes(exc: bool, s: u32, a: u32, t: u32, b: u32) -> Flagged
    requires { (s < 2) × (t < 2) × (2 ^ (F.bits - 1) ≤ a) × (a < magnitudes F) × (2 ^ (F.bits - 1) ≤ b) × (b < magnitudes F) }
    ensures { result ≡ answered exc (delivered F (together s (size_at F a) t (size_at F b) (2 ^ (F.bits + F.excess)))) }
{
    let less = a < b;
    let k = word::chosen(less, b, a);
    let l = word::chosen(less, a, b);
    add_ordered(exc, word::chosen(less, t, s), s != t, k, l)
}

// The word of a number, with the sign s.
fn alone(s: u32, word: u32) -> u32
    requires { s < 2 }
    ensures { Word result ≡ delivered F (units F s (size_of F word)) }
{
    if word::exponent_of(word) == 0 {
        return 0;
    }
    deliver::word_of(s, word::magnitude_of(word))
}

// a, and b with the sign t, where one of them is zero or reserved.
pub fn add_special(a: u32, t: u32, b: u32) -> Flagged
    requires { (t < 2) × (is_special F a b ≡ true) }
    ensures { (exc : Bool) → result ≡ answered exc (combined F a t b) }
{
    if word::is_reserved(a) | word::is_reserved(b) {
        return Flagged {
            value: 0x8004,
            types: 4,
        };
    }
    if word::exponent_of(a) == 0 {
        return Flagged {
            value: alone(t, b),
            types: 0,
        };
    }
    Flagged {
        value: alone(word::sign_of(a), a),
        types: 0,
    }
}

// a, and b with the sign t, where neither is.
pub fn add_common(exc: bool, a: u32, t: u32, b: u32) -> Flagged
    requires { (t < 2) × (is_special F a b ≡ false) }
    ensures { result ≡ answered exc (combined F a t b) }
{
    add_sizes(
        exc,
        word::sign_of(a),
        word::magnitude_of(a),
        t,
        word::magnitude_of(b),
    )
}

// The sign with which b is added: its own, or with minus the other.
pub fn sign_added(minus: bool, b: u32) -> u32
    ensures { (result < 2) × (result ≡ pick minus (1 - sign_of F b) (sign_of F b)) }
{
    let s = word::sign_of(b);
    word::chosen(minus, 1 - s, s)
}
