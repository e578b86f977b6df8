// Digits moved up, cut off and rounded.
ghost use Rattle.std.specs.Prelude.{◌≡◌, ◌+◌, ◌-◌, ◌*◌, ◌/◌, ◌^◌, ◌<◌, ◌≤◌};
ghost use Rattle.floating.specs.Format.{F};
ghost use Rattle.floating.specs.Round.{near};

use crate::{format, word};

// x / 2 ^ d, at any d
pub fn cut_down(x: u64, d: u32) -> u64
    requires { x < 2 ^ (F.bits + F.bits + 2) }
    ensures { result ≡ x / 2 ^ d }
{
    x >> d.min(format::F_SUM_DIGITS)
}

// How many places x must be moved up to have 64 digits.
pub fn zeros_of(x: u64) -> u32
    requires { 0 < x }
    ensures { (result < 64) × (2 ^ 63 ≤ x * 2 ^ result) × (x * 2 ^ result < 2 ^ 64) }
{
    x.leading_zeros()
}

// x moved up.
pub fn raised(x: u64, z: u32) -> u64
    requires { (z < 64) × (x * 2 ^ z < 2 ^ 64) }
    ensures { result ≡ x * 2 ^ z }
{
    x << z
}

// One digit less, to the nearest, a half up: a digit more may come of it. The first digit that is left out decides, so of more digits those after it are cut
// off before.
pub fn nearest(x: u32) -> u32
    requires { (2 ^ F.bits ≤ x) × (x < 2 ^ (F.bits + 1)) }
    ensures { (result ≡ near x 2) × (2 ^ (F.bits - 1) ≤ result) × (result ≤ 2 ^ F.bits) }
{
    (x + 1) / 2
}

// The first digits of the 64 of y, to the nearest.
pub fn near_of(y: u64) -> u32
    requires { 2 ^ 63 ≤ y }
    ensures { (result ≡ near y (2 ^ (64 - F.bits))) × (2 ^ (F.bits - 1) ≤ result) × (result ≤ 2 ^ F.bits) }
{
    nearest((y / format::F_FIRST_OUT) as u32)
}

// How many places x, of one or two digits more than are kept, must be moved up to have two more.
pub fn places_short(x: u32) -> u32
    requires { (2 ^ F.bits ≤ x) × (x < 2 ^ (F.bits + 2)) }
    ensures { (result < 2) × (2 ^ (F.bits + 1) ≤ x * 2 ^ result) × (x * 2 ^ result < 2 ^ (F.bits + 2)) }
{
    word::chosen(x < format::F_PRODUCT_FIRST, 1, 0)
}

// x moved up by no place or one: a sum, since where several are worked out at a time a compiler may make a product of a shift by a number that it does not know.
pub fn doubled_once(x: u32, z: u32) -> u32
    requires { (z < 2) × (x < 2 ^ 31) }
    ensures { result ≡ x * 2 ^ z }
{
    x + word::chosen(z == 1, x, 0)
}

// Two digits less, to the nearest, a half up: a digit more may come of it. With the last digit cut off before, and `nearest` then, compilers shift by a number that
// they do not know, and a product takes a sixth longer.
pub fn nearest_of_two(x: u32) -> u32
    requires { (2 ^ (F.bits + 1) ≤ x) × (x < 2 ^ (F.bits + 2)) }
    ensures { (result ≡ near x 4) × (2 ^ (F.bits - 1) ≤ result) × (result ≤ 2 ^ F.bits) }
{
    (x + 2) / 4
}
