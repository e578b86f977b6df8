// The floating operations for C, on plain numbers. A result has the value in its low 32 bits and the type bits above. EXC is set where exc is not 0.
#![tactic(auto)]

ghost use Rattle.std.specs.Prelude.{◌≡◌};
ghost use Rattle.numbers.specs.Choice.{pick};
ghost use Rattle.floating.specs.declared.Delivery.TheVariants.{Word};
ghost use Rattle.floating.specs.Format.{F, is_reserved};
ghost use Rattle.floating.specs.Reading.{shown_bits};
ghost use Rattle.floating.specs.Operations.{answered, sum, difference, product, quotient, compared, rounded_longword, truncated_longword, from_longword};
ghost use Rattle.floating_c.specs.Given.{is_set, joined, joined_bit, shortest, Multiplied};

fn join(r: floating::Flagged) -> u64
    ensures { result ≡ joined r }
{
    u64::from(r.value) + u64::from(r.types) * 4294967296
}

fn join_bit(r: floating::Compared) -> u64
    ensures { result ≡ joined_bit r }
{
    u64::from(r.bit) + u64::from(r.types) * 4294967296
}

#[unsafe(no_mangle)]
pub extern "C" fn kuj_f_add(a: u32, b: u32, exc: u32) -> u64
    ensures { result ≡ joined (answered (is_set exc) (sum F a b)) }
{
    join(floating::add(a, b, exc != 0))
}

#[unsafe(no_mangle)]
pub extern "C" fn kuj_f_subtract(a: u32, b: u32, exc: u32) -> u64
    ensures { result ≡ joined (answered (is_set exc) (difference F a b)) }
{
    join(floating::subtract(a, b, exc != 0))
}

#[unsafe(no_mangle)]
pub extern "C" fn kuj_f_multiply(a: u32, b: u32, exc: u32) -> u64
    ensures { result ≡ joined (answered (is_set exc) (product F a b)) }
{
    join(floating::multiply(a, b, exc != 0))
}

#[unsafe(no_mangle)]
pub extern "C" fn kuj_f_divide(a: u32, b: u32, exc: u32) -> u64
    ensures { result ≡ joined (answered (is_set exc) (quotient F a b)) }
{
    join(floating::divide(a, b, exc != 0))
}

// Whether a stands in the relation <2:0> to b: the value is the mask bit.
#[unsafe(no_mangle)]
pub extern "C" fn kuj_f_compare(a: u32, b: u32, relation: u32) -> u64
    ensures { result ≡ joined_bit (compared F relation a b) }
{
    join_bit(floating::compare(relation, a, b))
}

#[unsafe(no_mangle)]
pub extern "C" fn kuj_f_cvt_rounded(word: u32, exc: u32) -> u64
    ensures { result ≡ joined (rounded_longword F (is_set exc) word) }
{
    join(floating::rounded_longword(word, exc != 0))
}

#[unsafe(no_mangle)]
pub extern "C" fn kuj_f_cvt_truncated(word: u32, exc: u32) -> u64
    ensures { result ≡ joined (truncated_longword F (is_set exc) word) }
{
    join(floating::truncated_longword(word, exc != 0))
}

// Nothing is recorded, so the result is the word alone.
#[unsafe(no_mangle)]
pub extern "C" fn kuj_f_from_longword(longword: u32) -> u64
    ensures { from_longword F longword ≡ Word result }
{
    u64::from(floating::from_longword(longword).value)
}

// The kind of a word's F_floating reading.
#[unsafe(no_mangle)]
pub extern "C" fn kuj_f_reading_kind(word: u32) -> u64
    ensures { result ≡ pick (is_reserved F word) 2 0 }
{
    floating::kind_of(floating::read_floating(word))
}

// Its 64 bits.
#[unsafe(no_mangle)]
pub extern "C" fn kuj_f_reading_bits(word: u32) -> u64
    ensures { result ≡ shown_bits F word }
{
    floating::bits_of(floating::read_floating(word))
}

// The products of two runs of words, each into its place in out, as far as the shortest of the three goes; the rest of out is kept. EXC is clear.
#[unsafe(no_mangle)]
pub extern "C" fn kuj_f_multiply_all(a: &[u32], b: &[u32], out: &mut [u32])
    ensures { Multiplied a.now b.now out.old out.new (shortest a.now b.now out.old) }
{
    for i in 0..a.len().min(b.len()).min(out.len()) {
        out[i] = floating::multiply(a[i], b[i], false).value;
    }
}
