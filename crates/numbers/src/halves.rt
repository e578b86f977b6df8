// The two halves of 64 bits, and a multiple that is cut to the low one.
ghost use Rattle.std.specs.Prelude.{◌≡◌, ◌*◌, ◌%◌, ◌^◌, ◌<◌};
ghost use Rattle.numbers.specs.Halves.{low as low_of, high as high_of, with_low, with_high};

// Bits <31:0>.
pub fn low(x: u64) -> u64
    ensures { result ≡ low_of x }
{
    x & 0xFFFF_FFFF
}

// The same as a longword.
pub fn longword(x: u64) -> u32
    ensures { result ≡ low_of x }
{
    low(x) as u32
}

// Bits <63:32>.
pub fn high(x: u64) -> u64
    ensures { result ≡ high_of x }
{
    x >> 32
}

// x with bits <31:0> replaced.
pub fn with_low(x: u64, v: u32) -> u64
    ensures { result ≡ with_low x v }
{
    (x >> 32 << 32) | v as u64
}

// x with bits <63:32> replaced.
pub fn with_high(x: u64, v: u32) -> u64
    ensures { result ≡ with_high x v }
{
    ((v as u64) << 32) | low(x)
}

// i times a stride mod 2^32, for the element i.
pub fn multiple(i: usize, stride: u32) -> u32
    requires { i < 64 }
    ensures { result ≡ i * stride % 2 ^ 32 }
{
    (i as u32).wrapping_mul(stride)
}
