// The product of two words.
ghost use Rattle.std.specs.Prelude.{◌≡◌, ◌+◌, ◌-◌, ◌*◌, ◌/◌, ◌%◌, ◌^◌, ◌<◌, ◌≤◌, Bool, true};
ghost use Rattle.floating.specs.Format.{F, sign_of};
ghost use Rattle.floating.specs.Working.{is_special};
ghost use Rattle.floating.specs.Operations.{answered, product};

use crate::{Flagged, deliver, format, word};

// The product of two significands, in one multiply: no call uses it any more.
fn whole_product(a: u64, b: u64) -> u64
    requires { (2 ^ (F.bits - 1) ≤ a) × (a < 2 ^ F.bits) × (2 ^ (F.bits - 1) ≤ b) × (b < 2 ^ F.bits) }
    ensures { (result ≡ a * b) × (2 ^ (F.bits + F.bits - 2) ≤ result) × (result < 2 ^ (F.bits + F.bits)) }
{
    a * b
}

// The product of two halves of significands. No multiply of F_floating products is wider, for processors that have no wider one (document 02, Q-4).
fn of_halves(x: u32, y: u32) -> u32
    requires { (x < 2 ^ (F.bits / 2)) × (y < 2 ^ (F.bits / 2)) }
    ensures { (result ≡ x * y) × (result < 2 ^ F.bits) }
{
    x * y
}

// The product of two significands, by their halves, without the digits that do not matter: what is left are two digits more than are kept, or one, and no digit
// past these makes or unmakes a half. Of the product of the lower halves only what it carries is wanted.
fn first_digits(a: u32, b: u32) -> u32
    requires { (2 ^ (F.bits - 1) ≤ a) × (a < 2 ^ F.bits) × (2 ^ (F.bits - 1) ≤ b) × (b < 2 ^ F.bits) }
    ensures { (result ≡ a * b / 2 ^ (F.bits - 2)) × (2 ^ F.bits ≤ result) × (result < 2 ^ (F.bits + 2)) }
{
    let a_high = a / format::F_HALF_UNIT;
    let a_low = a % format::F_HALF_UNIT;
    let b_high = b / format::F_HALF_UNIT;
    let b_low = b % format::F_HALF_UNIT;
    let across = of_halves(a_high, b_low) + of_halves(a_low, b_high);
    let middle = across + of_halves(a_low, b_low) / format::F_HALF_UNIT;
    of_halves(a_high, b_high) * format::F_PRODUCT_UPPER + middle / format::F_PRODUCT_ACROSS
}

// The sign of a quotient too.
pub fn sign_of_product(a: u32, b: u32) -> u32
    ensures { (result ≡ (sign_of F a + sign_of F b) % 2) × (result < 2) }
{
    word::chosen(word::sign_of(a) == word::sign_of(b), 0, 1)
}

// One of the two is zero or reserved.
fn multiply_special(a: u32, b: u32) -> Flagged
    requires { is_special F a b ≡ true }
    ensures { (exc : Bool) → result ≡ answered exc (product F a b) }
{
    let reserved = word::is_reserved(a) | word::is_reserved(b);
    Flagged {
        value: word::chosen(reserved, 0x8004, 0),
        types: word::chosen(reserved, 4, 0),
    }
}

pub fn of_words(exc: bool, a: u32, b: u32) -> Flagged
    ensures { result ≡ answered exc (product F a b) }
{
    let ea = word::exponent_of(a);
    let eb = word::exponent_of(b);
    if (ea == 0) | (eb == 0) {
        return multiply_special(a, b);
    }
    let s = sign_of_product(a, b);
    let x = first_digits(word::short_significand_of(a), word::short_significand_of(b));
    deliver::of_two_more(exc, s, ea + eb, format::F_FIRST_DIGITS_DOWN, x)
}
