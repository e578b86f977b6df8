// F_floating's numbers, as specs/Format has them in its F, and those that the code makes of them: no other module writes one out.

// Significant bits, the first of which is not in the word.
pub const F_BITS: u32 = 24;
// What an exponent field is above the exponent.
pub const F_EXCESS: u32 = 128;
// Exponent fields of numbers run from 1 to this.
pub const F_LARGEST: u32 = 255;
// The exponent's lowest bit in a word.
pub const F_LOWEST: u32 = 7;

// That bit's value, and how many exponent fields there are, 0 with them.
pub const F_PLACE: u32 = 1 << F_LOWEST;

pub const F_FIELDS: u32 = F_LARGEST + 1;
// The first bit of a significand.
pub const F_FIRST: u32 = 1 << (F_BITS - 1);
// How many magnitudes there are. In 32 bits that is the sign's place above a magnitude.
pub const F_MAGNITUDES: u32 = F_FIELDS * F_FIRST;
// How many of them are numbers: those with a field above 0.
pub const F_NUMBERS: u32 = F_MAGNITUDES - F_FIRST;
// How many fields 32 bits hold above a fraction.
pub const F_FIELDS_HELD: u32 = 2 * F_FIELDS;
// A word's number is its significand times 2 ^ its exponent field, in units of 2 ^ -F_UNIT.
pub const F_UNIT: u32 = F_BITS + F_EXCESS;

// Of 64 digits, those that a rounded significand leaves out, and the value of the first of them.
pub const F_LEFT_OUT: u32 = 64 - F_BITS;

pub const F_FIRST_OUT: u64 = 1 << (F_LEFT_OUT - 1);

// A sum is worked out with so many digits below the larger number's last; the larger number's last digit, in units of the last of these.
pub const F_BELOW: u32 = F_BITS + 2;

pub const F_BELOW_UNIT: u64 = 1 << F_BELOW;
// So many digits hold the smaller number there.
pub const F_SUM_DIGITS: u32 = F_BITS + F_BELOW;
// How far a sum's exponent field stands above the larger number's, with no zero before its 64 digits.
pub const F_SUM_UP: u32 = F_LEFT_OUT - F_BELOW;

// A significand has two halves of so many digits; one of the upper half is so many of the lower.
pub const F_HALF: u32 = F_BITS / 2;

pub const F_HALF_UNIT: u32 = 1 << F_HALF;
// A product is worked out to two digits more than are kept; where it has one digit less, the first of these is 0. What the first counts.
pub const F_PRODUCT_FIRST: u32 = 1 << (F_BITS + 1);
// What one in the product of the upper halves is in the last of these digits, and what the last of them is in the products across.
pub const F_PRODUCT_UPPER: u32 = 1 << 2;

pub const F_PRODUCT_ACROSS: u32 = 1 << (F_HALF - 2);
// How far a product's exponent field stands below the sum of the exponent fields, where that first digit is 1.
pub const F_FIRST_DIGITS_DOWN: u32 = F_UNIT - F_BITS;
// The same with no zero before the product's 64 digits.
pub const F_PRODUCT_DOWN: u32 = F_UNIT - F_LEFT_OUT;

// A quotient is worked out to one digit more than are kept.
pub const F_QUOTIENT_DIGITS: u32 = F_BITS + 1;
// How far its exponent field stands above the difference of the exponent fields, with the dividend not moved up.
pub const F_QUOTIENT_UP: u32 = F_UNIT + 1;

// The exponent field of a whole number with no zero before its 64 digits.
pub const F_WHOLE_UP: u32 = F_UNIT + F_LEFT_OUT;
// From this exponent field on the low 32 bits of a number are zero.
pub const F_LOW_ZERO: u32 = F_UNIT + 32;

// What a binary64 number's exponent field, 1023 for 1, is above the exponent field of a power of two in units.
pub const F_DOUBLE: u32 = 1023 - F_UNIT;
