// The fields of a word.
ghost use Rattle.std.specs.Prelude.{◌≡◌};
ghost use Rattle.numbers.specs.Choice.{pick};
ghost use Rattle.floating.specs.Format.{F, sign_of, exponent_of, fraction_of, significand_of, is_zero, is_reserved};
ghost use Rattle.floating.specs.Working.{swapped as swapped_word, magnitude};

use crate::format;

// Both are worked out before one is chosen, so that nothing has to be foretold.
pub fn chosen(first: bool, x: u32, y: u32) -> u32
    ensures { result ≡ pick first x y }
{
    if first { x } else { y }
}

// The halves exchanged: the sign, the exponent below it, and the whole fraction below that.
pub fn swapped(word: u32) -> u32
    ensures { result ≡ swapped_word word }
{
    word % 65536 * 65536 + word / 65536
}

pub fn sign_of(word: u32) -> u32
    ensures { result ≡ sign_of F word }
{
    word / 32768 % 2
}

pub fn exponent_of(word: u32) -> u32
    ensures { result ≡ exponent_of F word }
{
    word / format::F_PLACE % format::F_FIELDS
}

pub fn fraction_of(word: u32) -> u32
    ensures { result ≡ fraction_of F word }
{
    word % format::F_PLACE * 65536 + word / 65536
}

pub fn significand_of(word: u32) -> u64
    ensures { result ≡ significand_of F word }
{
    u64::from(short_significand_of(word))
}

// The same in 32 bits.
pub fn short_significand_of(word: u32) -> u32
    ensures { result ≡ significand_of F word }
{
    format::F_FIRST + fraction_of(word)
}

pub fn is_zero(word: u32) -> bool
    ensures { result ≡ is_zero F word }
{
    (exponent_of(word) == 0) & (sign_of(word) == 0)
}

pub fn is_reserved(word: u32) -> bool
    ensures { result ≡ is_reserved F word }
{
    (exponent_of(word) == 0) & (sign_of(word) == 1)
}

pub fn magnitude_of(word: u32) -> u32
    ensures { result ≡ magnitude F word }
{
    word % 32768 * 65536 + word / 65536
}
