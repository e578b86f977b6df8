// What one element receives: every operation on plain numbers, in groups of works.
#![tactic(auto, unfolding(crate::specs::Receives::result_of))]

ghost use Rattle.std.specs.Prelude.{◌≡◌, Bool, true, false};
ghost use Rattle.numbers.specs.Choice.{pick};
ghost use Rattle.opcodes.specs.declared.works.Work.TheVariants.{Convert};
ghost use Rattle.numbers.specs.Halves.{low};
ghost use Rattle.floating.specs.Format.{F};
ghost use Rattle.floating.specs.Working.{is_special};
ghost use Rattle.element.specs.Receives.{quiet as quiet_out, bit_out, result_of};
ghost use Rattle.element.specs.Working.{is_short, sum_work, product_work, is_compare};

use numbers::halves::longword;
use opcodes::works::Work;

mod float;
mod integer;

// The 64 bits that an element is left with (for compare, the mask bit), and the VAER type bits that
// it records.
#[derive(Clone, Copy)]
pub struct Out {
    pub value: u64,
    pub types: u64,
}

// An element that records nothing.
fn quiet(value: u64) -> Out
    ensures { result ≡ quiet_out value }
{
    Out { value, types: 0 }
}

// A mask bit, and what its compare recorded.
fn mask_bit(t: bool, types: u64) -> Out
    ensures { result ≡ bit_out t types }
{
    Out {
        value: u64::from(t),
        types,
    }
}

// A short work of one element: integer, logical, shift or merge. Numbers and flags are
// plain, so that the compiler can make a loop for each work.
pub fn short(work: Work, exc: bool, matches: bool, a: u64, b: u64, c: u64) -> Out
    requires { is_short work ≡ true }
    ensures { result ≡ result_of work exc 0 matches a b c }
{
    match work {
        Work::AddLongword => integer::add(exc, a, b, c),
        Work::SubtractLongword => integer::subtract(exc, a, b, c),
        Work::MultiplyLongword => integer::multiply(exc, a, b, c),
        Work::BitSet => quiet(longword::bit_set(a, b)),
        Work::ExclusiveOr => quiet(longword::exclusive_or(a, b)),
        Work::BitClear => quiet(longword::bit_clear(a, b)),
        Work::ShiftRight => integer::shift_right(a, b, c),
        Work::ShiftLeft => integer::shift_left(a, b, c),
        // Merge: the only short work that is left.
        _ => quiet(merged(matches, a, b)),
    }
}

// Whether one of the operands of a floating sum or difference is zero or reserved.
pub fn is_special(a: u64, b: u64) -> bool
    ensures { result ≡ is_special F (low a) (low b) }
{
    floating::is_special(longword(a), longword(b))
}

// The floating sum of one element, or the difference, where an operand is zero or reserved.
pub fn special_sum_or_difference(minus: bool, a: u64, b: u64, c: u64) -> Out
    requires { is_special F (low a) (low b) ≡ true }
    ensures { (exc : Bool) → result ≡ result_of (sum_work minus) exc 0 false a b c }
{
    float::place(
        c,
        floating::special_sum_or_difference(minus, longword(a), longword(b)),
    )
}

// The floating sum of one element, or the difference, where no operand is.
pub fn common_sum_or_difference(minus: bool, exc: bool, a: u64, b: u64, c: u64) -> Out
    requires { is_special F (low a) (low b) ≡ false }
    ensures { result ≡ result_of (sum_work minus) exc 0 false a b c }
{
    float::place(
        c,
        floating::common_sum_or_difference(minus, longword(a), longword(b), exc),
    )
}

// The floating product of one element, or the quotient.
pub fn product(divide: bool, exc: bool, a: u64, b: u64, c: u64) -> Out
    ensures { result ≡ result_of (product_work divide) exc 0 false a b c }
{
    if divide {
        return float::divide(exc, a, b, c);
    }
    float::multiply(exc, a, b, c)
}

// The conversion of one element.
pub fn converted(exc: bool, conversion: u64, b: u64, c: u64) -> Out
    ensures { result ≡ result_of Convert exc conversion false 0 b c }
{
    float::convert(conversion, exc, b, c)
}

// The compare of one element: longword, or F.
pub fn compared(work: Work, relation: u64, a: u64, b: u64) -> Out
    requires { is_compare work ≡ true }
    ensures { result ≡ result_of work false relation false a b 0 }
{
    match work {
        Work::CompareLongword => integer::compare(relation, a, b),
        // F: the only compare that is left.
        _ => float::compare(relation, a, b),
    }
}

// Merge.
fn merged(matches: bool, a: u64, b: u64) -> u64
    ensures { result ≡ pick matches a b }
{
    if matches { a } else { b }
}
