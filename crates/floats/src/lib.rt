// The float tests and choices that document 01 names, one function each. Contracts: specs/Floats.antt.
#![tactic(auto)]

ghost use Rattle.std.specs.Prelude.{◌≡◌};
ghost use Rattle.std.specs.Float.{binary64};
ghost use Rattle.std.specs.Float.Ieee.{to_bits};
ghost use Rattle.floats.specs.Floats.{table_float, book_float, book_value, gap, smaller};

// The pattern of 1,000,000,000.
const BILLION: u64 = 0x41cd_cd65_0000_0000;

// Whether a lent table may hold x (row 4).
#[tactic(auto, using(crate::proofs::Laws::table_size))]
pub fn is_table_float(x: f64) -> bool
    ensures { result ≡ table_float x }
{
    x.abs() <= 1000000000.0
}

// Whether a book may hold this bit pattern (row 4). Where the sign bit is clear the larger pattern has the larger
// value, and every NaN's, like every pattern whose sign bit is set, lies above the limit's.
pub fn is_book_float(bits: u64) -> bool
    ensures { result ≡ book_float bits }
{
    bits <= BILLION
}

// The gap of two speeds: the size of their difference.
#[tactic(auto, using(crate::proofs::Laws::size_is), unfolding(crate::specs::Floats::gap))]
pub fn speed_gap(a: f64, b: f64) -> f64
    ensures { result ≡ gap a b }
{
    (a - b).abs()
}

// The smaller of two offsets, and the first of two equal ones: std's `min` promises either of these.
#[tactic(auto, unfolding(crate::specs::Floats::smaller))]
pub fn smaller_offset(a: f64, b: f64) -> f64
    ensures { result ≡ smaller a b }
{
    if a.is_nan() {
        return b;
    }
    if b < a { b } else { a }
}

// Whether a value that is lent as an f64 is one that a book may hold, by its sign too.
#[tactic(auto, using(crate::proofs::Laws::value_nan), unfolding(crate::specs::Floats::book_value))]
pub fn is_book_value(x: f64) -> bool
    ensures { result ≡ book_value x }
{
    !x.is_nan() && is_book_float(f64::to_bits(x))
}

// The pattern of NaN: the logic has one NaN.
const NAN: u64 = 0x7ff8_0000_0000_0000;

// The bit pattern of a float.
#[tactic(auto, using(crate::proofs::Laws::nan_bits_only))]
pub fn bits_of(x: f64) -> u64
    ensures { result ≡ to_bits binary64 x }
{
    if x.is_nan() {
        return NAN;
    }
    f64::to_bits(x)
}
