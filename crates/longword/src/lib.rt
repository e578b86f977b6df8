// The integer, logical and shift work of one element. `a` is Va's element or the scalar, `b` is
// Vb's. No function branches, so that a loop over elements becomes vector code.
#![tactic(auto)]

ghost use Rattle.std.specs.Prelude.{◌≡◌, ◌+◌, ◌%◌, ◌^◌};
ghost use Rattle.numbers.specs.Halves.{low};
ghost use Rattle.numbers.specs.Signed.{low32, overflows};
ghost use Rattle.longword.specs.Longword.{sum_of, difference_of, product_of, is_less, is_equal, compares, bit_set_of, exclusive_or_of, bit_clear_of, shifted_right, shifted_left};

use numbers::{bits, halves, relation};

pub fn sum(a: u64, b: u64) -> u64
    ensures { result ≡ low32 (sum_of a b) }
{
    u64::from(halves::longword(a).wrapping_add(halves::longword(b)))
}

// A sum overflows where its sign is that of neither term.
pub fn sum_overflows(a: u64, b: u64) -> bool
    ensures { result ≡ overflows (sum_of a b) }
{
    let z = sum(a, b);
    bits::bit((a ^ z) & (b ^ z), 31)
}

pub fn difference(a: u64, b: u64) -> u64
    ensures { result ≡ low32 (difference_of a b) }
{
    u64::from(halves::longword(a).wrapping_sub(halves::longword(b)))
}

// A difference overflows where its sum with b does: that sum is a.
pub fn difference_overflows(a: u64, b: u64) -> bool
    ensures { result ≡ overflows (difference_of a b) }
{
    let z = difference(a, b);
    bits::bit((z ^ a) & (b ^ a), 31)
}

pub fn product(a: u64, b: u64) -> u64
    ensures { result ≡ low32 (product_of a b) }
{
    halves::low(halves::low(a) * halves::low(b))
}

// The signed number of a longword, plus 2^31.
fn excess(x: u64) -> u64
    ensures { result ≡ (low x + 2 ^ 31) % 2 ^ 32 }
{
    halves::low(halves::low(x) + 2147483648)
}

// With x and y in excess by 2^31, the product plus 2^31 is x * y - (x + y) * 2^31 + 2^62 + 2^31:
// modulo 2^64 it is below 2^32 exactly where the product is a longword.
pub fn product_overflows(a: u64, b: u64) -> bool
    ensures { result ≡ overflows (product_of a b) }
{
    let x = excess(a);
    let y = excess(b);
    let positive = (x * y).wrapping_add(4611686020574871552);
    let raised = positive.wrapping_sub((x + y) * 2147483648);
    4294967296 <= raised
}

pub fn less(a: u64, b: u64) -> bool
    ensures { result ≡ is_less a b }
{
    excess(a) < excess(b)
}

pub fn equal(a: u64, b: u64) -> bool
    ensures { result ≡ is_equal a b }
{
    halves::longword(a) == halves::longword(b)
}

// The relation in bits <2:0> holds between a, on the left, and b.
pub fn compare(relation: u64, a: u64, b: u64) -> bool
    ensures { result ≡ compares relation a b }
{
    relation::holds(relation, less(a, b), equal(a, b))
}

pub fn bit_set(a: u64, b: u64) -> u64
    ensures { result ≡ bit_set_of a b }
{
    halves::with_low(b, halves::longword(a | b))
}

pub fn exclusive_or(a: u64, b: u64) -> u64
    ensures { result ≡ exclusive_or_of a b }
{
    halves::with_low(b, halves::longword(a ^ b))
}

pub fn bit_clear(a: u64, b: u64) -> u64
    ensures { result ≡ bit_clear_of a b }
{
    halves::with_low(b, halves::longword(!a & b))
}

// b<31:0> shifted right by a<4:0>.
pub fn shift_right(a: u64, b: u64) -> u64
    ensures { result ≡ shifted_right a b }
{
    halves::low(b) >> (a % 32)
}

// The low 32 bits of b<31:0> shifted left by a<4:0>.
pub fn shift_left(a: u64, b: u64) -> u64
    ensures { result ≡ shifted_left a b }
{
    halves::low(halves::low(b) << (a % 32))
}
