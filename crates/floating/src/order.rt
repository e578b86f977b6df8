// How two words lie to each other.
ghost use Rattle.std.specs.Prelude.{◌≡◌, false};
ghost use Rattle.std.specs.Ordering.{is_lt, is_eq};
ghost use Rattle.numbers.specs.Relation.{relation_holds};
ghost use Rattle.floating.specs.Format.{F, is_reserved};
ghost use Rattle.floating.specs.Exact.{value_of, minus};
ghost use Rattle.floating.specs.Operations.{compared};
ghost use Rattle.floating.specs.Working.{level, lies, naming};

use crate::{Compared, format, word};
use std::cmp::Ordering;

// The sign, the exponent and the fraction in a row, and 0 for zero, which has no exponent.
fn level_of(word: u32) -> u32
    ensures { result ≡ level F word }
{
    let t = word::swapped(word);
    word::chosen(t < format::F_FIRST, 0, t)
}

// How a lies to b. Levels rise with the numbers, but fall where one is negative: there they change sides. A choice of one of two orders takes longer, since
// compilers foretell it.
fn order_of(a: u32, b: u32) -> Ordering
    requires { (is_reserved F a ≡ false) × (is_reserved F b ≡ false) }
    ensures { result ≡ lies (minus (value_of F a) (value_of F b)) }
{
    let x = level_of(a);
    let y = level_of(b);
    let falling = (format::F_MAGNITUDES <= x) | (format::F_MAGNITUDES <= y);
    word::chosen(falling, y, x).cmp(&word::chosen(falling, x, y))
}

// The relation that names an order, by its bits <1:0>: 0 where a is greater, 1 where they are equal, 2 where a is less.
fn named_by(order: Ordering) -> u32
    ensures { result ≡ naming order }
{
    match order {
        Ordering::Greater => 0,
        Ordering::Equal => 1,
        Ordering::Less => 2,
    }
}

// The relation holds between two numbers that lie so to each other: bits <1:0> name how, and bit <2> asks for the opposite. The order is one number to compare
// and no branch.
fn holds(relation: u32, order: Ordering) -> bool
    ensures { result ≡ relation_holds relation (is_lt order) (is_eq order) }
{
    (named_by(order) == relation % 4) != (relation / 4 % 2 == 1)
}

pub fn compare_words(relation: u32, a: u32, b: u32) -> Compared
    ensures { result ≡ compared F relation a b }
{
    if word::is_reserved(a) | word::is_reserved(b) {
        return Compared {
            bit: false,
            types: 4,
        };
    }
    Compared {
        bit: holds(relation, order_of(a, b)),
        types: 0,
    }
}
