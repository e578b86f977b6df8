// The quotient of two words (document 02, Q-1).
ghost use Rattle.std.specs.Prelude.{◌≡◌, ◌+◌, ◌-◌, ◌*◌, ◌/◌, ◌^◌, ◌<◌, ◌≤◌, Bool, true};
ghost use Rattle.floating.specs.Format.{F, is_zero, is_reserved};
ghost use Rattle.floating.specs.Operations.{answered, quotient};
ghost use Rattle.floating.specs.Working.{special_quotient_type, is_special};

use crate::{Flagged, deliver, format, product, round, word};

// How many places a dividend is moved up for the whole part of the quotient to have one digit more than are kept.
fn places_up(a: u64, b: u64) -> u32
    requires { (2 ^ (F.bits - 1) ≤ a) × (a < 2 ^ F.bits) × (2 ^ (F.bits - 1) ≤ b) × (b < 2 ^ F.bits) }
    ensures { (result ≤ F.bits + 1) × (b * 2 ^ F.bits ≤ a * 2 ^ result) × (a * 2 ^ result < b * 2 ^ (F.bits + 1)) }
{
    word::chosen(a < b, format::F_QUOTIENT_DIGITS, format::F_BITS)
}

// The whole part of the quotient of two significands, the dividend moved up: one digit more than are kept. No digit past these makes or unmakes a half, so
// the whole part decides the rounding.
fn whole_quotient(a: u64, b: u64, up: u32) -> u32
    requires { (0 < b) × (b < 2 ^ F.bits) × (up ≤ F.bits + 1) × (b * 2 ^ F.bits ≤ a * 2 ^ up) × (a * 2 ^ up < b * 2 ^ (F.bits + 1)) }
    ensures { (result ≡ a * 2 ^ up / b) × (2 ^ F.bits ≤ result) × (result < 2 ^ (F.bits + 1)) }
{
    (round::raised(a, up) / b) as u32
}

// The type of the exception where one of the two is zero or reserved; 0 where zero is divided by a number, which makes none.
fn special_type(a: u32, b: u32) -> u32
    ensures { (result ≡ special_quotient_type (is_zero F b) (is_reserved F a) (is_reserved F b)) × (result < 8) }
{
    let reserved = word::is_reserved(a);
    let by_zero = word::chosen(reserved, 6, 2);
    let by_number = word::chosen(reserved, 4, 0);
    let other = word::chosen(word::is_reserved(b), 4, by_number);
    word::chosen(word::is_zero(b), by_zero, other)
}

// One of the two is zero or reserved: 00008000 plus the type, or zero.
fn divide_special(a: u32, b: u32) -> Flagged
    requires { is_special F a b ≡ true }
    ensures { (exc : Bool) → result ≡ answered exc (quotient F a b) }
{
    let t = special_type(a, b);
    Flagged {
        value: word::chosen(t == 0, 0, 0x8000 + t),
        types: t,
    }
}

pub fn of_words(exc: bool, a: u32, b: u32) -> Flagged
    ensures { result ≡ answered exc (quotient F a b) }
{
    let ea = word::exponent_of(a);
    let eb = word::exponent_of(b);
    if (ea == 0) | (eb == 0) {
        return divide_special(a, b);
    }
    let s = product::sign_of_product(a, b);
    let ma = word::significand_of(a);
    let mb = word::significand_of(b);
    let up = places_up(ma, mb);
    let x = whole_quotient(ma, mb, up);
    deliver::of_one_more(exc, s, ea + format::F_QUOTIENT_UP, eb + up, x)
}
