// Single bits of 64.
ghost use Rattle.std.specs.Prelude.{◌≡◌, ℕ, ◌<◌, ◌≤◌};
ghost use Rattle.numbers.specs.Choice.{pick};
ghost use Rattle.numbers.specs.Bits.{bit as bit_of, without_bit, with_bit};
ghost use Rattle.std.specs.Iterator.{at_most};
ghost use Rattle.numbers.specs.Working.{low_bits, lowest_one, chosen, OnesBelow, GivesLowest};

use std::marker::Model;

// Bit i is one.
pub fn bit(x: u64, i: usize) -> bool
    requires { i < 64 }
    ensures { result ≡ bit_of x i }
{
    (x >> i) % 2 == 1
}

// x with bit i replaced by v.
pub fn with_bit(x: u64, i: usize, v: u64) -> u64
    requires { (i < 64) × (v < 2) }
    ensures { result ≡ with_bit x i v }
{
    x - (((x >> i) % 2) << i) + (v << i)
}

// The n lowest bits.
pub fn low_bits(x: u64, n: u64) -> u64
    requires { n ≤ 64 }
    ensures { result ≡ low_bits x n }
{
    if n < 64 { x % (1 << n) } else { x }
}

// The number of the lowest one.
pub fn lowest(x: u64) -> usize
    requires { 0 < x }
    ensures { result ≡ lowest_one x }
{
    x.trailing_zeros() as usize
}

// x with its lowest one turned to zero.
pub fn without_lowest(x: u64) -> u64
    requires { 0 < x }
    ensures { result ≡ without_bit x (lowest_one x) }
{
    x & (x - 1)
}

// The ones that are left of a set, the lowest first.
#[derive(Drop)]
pub struct Ones {
    left: u64,
}

impl Model for Ones {
    ghost Value = { ℕ };

    ghost view = { λ s. s.left };
}

impl Iterator for Ones {
    type Item = usize;

    ghost next_gives = { GivesLowest };

    ghost remaining = { at_most };

    fn next(&mut self) -> Option<usize> {
        if self.left == 0 {
            return None;
        }
        let i = lowest(self.left);
        self.left = without_lowest(self.left);
        Some(i)
    }
}

// The numbers of the ones of x, the lowest first.
pub fn ones_of(x: u64) -> Ones
    ensures { result ≡ x }
{
    Ones { left: x }
}

// The set of the numbers below n: all of them, or those whose bit of a mask is as asked.
pub fn chosen_below(masked: bool, asked: bool, mask: u64, n: u64) -> u64
    requires { n ≤ 64 }
    ensures { OnesBelow n (chosen masked asked mask) result }
{
    if masked {
        if asked {
            return low_bits(mask, n);
        }
        return low_bits(!mask, n);
    }
    low_bits(u64::MAX, n)
}

// x with the bits of a set replaced by y's.
pub fn replaced(x: u64, y: u64, which: u64) -> u64
    ensures { (i : ℕ) → bit_of result i ≡ pick (bit_of which i) (bit_of y i) (bit_of x i) }
{
    (x & !which) | (y & which)
}
