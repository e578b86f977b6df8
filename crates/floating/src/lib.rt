// F_floating (document 01, "What an element receives"; document 02, Q-1 and Q-2): each function equals a definition of `specs/` for every input.
#![tactic(auto)]

mod convert;
mod deliver;
mod format;
mod order;
mod product;
mod quotient;
mod read;
mod round;
mod sum;
mod word;

ghost use Rattle.std.specs.Prelude.{◌≡◌, Bool, true, false};
ghost use Rattle.numbers.specs.Choice.{pick};
ghost use Rattle.floating.specs.Format.{F};
ghost use Rattle.floating.specs.Working.{is_special};
ghost use Rattle.floating.specs.Reading.{Shows, longword_reading, kind_of, bits_of};
ghost use Rattle.floating.specs.Operations.{answered, sum, difference, product, quotient, compared, rounded_longword, truncated_longword, from_longword};

// What an operation gives, before EXC is looked at: the promises speak of it, and the calls hand out the answer to it.
#[derive(Clone, Copy)]
pub enum Delivery {
    Word(u32),
    Overflow,
    Underflow,
    Reserved,
    DivisionByZero,
    ReservedByZero,
}

// The 32 bits that an element receives, and the type bits that VAER records.
#[derive(Clone, Copy)]
pub struct Flagged {
    pub value: u32,
    pub types: u32,
}

// The mask bit that a compare gives, and the type bits that VAER records.
#[derive(Clone, Copy)]
pub struct Compared {
    pub bit: bool,
    pub types: u32,
}

// What a panel field shows.
#[derive(Clone, Copy)]
pub enum Reading {
    Number(f64),
    Longword(i32),
    Reserved(u8),
}

// Whether one of two words is zero or reserved. The sum or the difference of such words has a function of its own, so that it and that of all others are small
// enough for the compiler to put both into several loops.
pub fn is_special(a: u32, b: u32) -> bool
    ensures { result ≡ is_special F a b }
{
    (word::exponent_of(a) == 0) | (word::exponent_of(b) == 0)
}

// a minus b, or a plus b, where one of them is zero or reserved
pub fn special_sum_or_difference(minus: bool, a: u32, b: u32) -> Flagged
    requires { is_special F a b ≡ true }
    ensures { (exc : Bool) → result ≡ answered exc (pick minus (difference F a b) (sum F a b)) }
{
    sum::add_special(a, sum::sign_added(minus, b), b)
}

// a minus b, or a plus b, where neither is
pub fn common_sum_or_difference(minus: bool, a: u32, b: u32, exc: bool) -> Flagged
    requires { is_special F a b ≡ false }
    ensures { result ≡ answered exc (pick minus (difference F a b) (sum F a b)) }
{
    sum::add_common(exc, a, sum::sign_added(minus, b), b)
}

// a minus b, or a plus b
fn sum_or_difference(minus: bool, a: u32, b: u32, exc: bool) -> Flagged
    ensures { result ≡ answered exc (pick minus (difference F a b) (sum F a b)) }
{
    if is_special(a, b) {
        return special_sum_or_difference(minus, a, b);
    }
    common_sum_or_difference(minus, a, b, exc)
}

// a plus b
pub fn add(a: u32, b: u32, exc: bool) -> Flagged
    ensures { result ≡ answered exc (sum F a b) }
{
    sum_or_difference(false, a, b, exc)
}

// a minus b
pub fn subtract(a: u32, b: u32, exc: bool) -> Flagged
    ensures { result ≡ answered exc (difference F a b) }
{
    sum_or_difference(true, a, b, exc)
}

// a times b
pub fn multiply(a: u32, b: u32, exc: bool) -> Flagged
    ensures { result ≡ answered exc (product F a b) }
{
    product::of_words(exc, a, b)
}

// a divided by b
pub fn divide(a: u32, b: u32, exc: bool) -> Flagged
    ensures { result ≡ answered exc (quotient F a b) }
{
    quotient::of_words(exc, a, b)
}

// Whether a stands in the relation <2:0> to b.
pub fn compare(relation: u32, a: u32, b: u32) -> Compared
    ensures { result ≡ compared F relation a b }
{
    order::compare_words(relation, a, b)
}

// Conversion 5, F to longword rounded.
pub fn rounded_longword(word: u32, exc: bool) -> Flagged
    ensures { result ≡ rounded_longword F exc word }
{
    convert::to_longword(word, true, exc)
}

// Conversion 4, F to longword truncated.
pub fn truncated_longword(word: u32, exc: bool) -> Flagged
    ensures { result ≡ truncated_longword F exc word }
{
    convert::to_longword(word, false, exc)
}

// Conversion 1, longword to F. There is always a word, and nothing is recorded.
pub fn from_longword(longword: u32) -> Flagged
    ensures { (from_longword F longword ≡ Delivery.Word result.value) × (result.types ≡ 0) }
{
    Flagged {
        value: convert::from_longword(longword),
        types: 0,
    }
}

// The reading of a word as F_floating.
pub fn read_floating(word: u32) -> Reading
    ensures { Shows F word result }
{
    read::floating(word)
}

// The reading of a word as a longword, whose bits are the word's.
pub fn read_longword(word: u32) -> Reading
    ensures { (result ≡ longword_reading word) × (bits_of result ≡ word) }
{
    Reading::Longword(word.cast_signed())
}

// The number of a reading's case.
pub fn kind_of(r: Reading) -> u64
    ensures { result ≡ kind_of r }
{
    match r {
        Reading::Number(_) => 0,
        Reading::Longword(_) => 1,
        Reading::Reserved(_) => 2,
    }
}

// A reading's 64 bits.
pub fn bits_of(r: Reading) -> u64
    ensures { result ≡ bits_of r }
{
    read::bits_of(r)
}
