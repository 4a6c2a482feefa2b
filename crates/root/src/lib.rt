// The square root of an f64: guessed in floats, tested in whole numbers, and worked out digit by digit where the guess
// is wrong. Contract: specs/Root.antt.
#![tactic(auto)]

ghost use Rattle.std.specs.Prelude.{◌≡◌, true};
ghost use Prim.Native.Nat.{◌≤◌, ◌<◌, compare};
ghost use Rattle.std.specs.Float.{binary64};
ghost use Rattle.std.specs.Float.Ieee.{nearest, of_bits};
ghost use Rattle.root.specs.Root.{sqrt};
ghost use Rattle.root.specs.Steps.{Significant, Scales, Rooted, RoundedRoot};

const SIGN: u64 = 0x8000_0000_0000_0000;

const INFINITY: u64 = 0x7ff0_0000_0000_0000;
// The weight of the exponent's field, which is also that of a significand's leading digit.
const HID: u64 = 0x0010_0000_0000_0000;

// START less half of x's pattern is the pattern of about 0.63 / √x.
const START: u64 = 0x5fdb_f102_0000_0000;
// Added to a number near 1 and taken off again, it leaves 26 binary places of it.
const CUT: f64 = 100663296.0;

// The pattern of a positive number.
#[derive(Clone, Copy)]
struct Positive {
    bits: u64,
    ghost nonzero: { 0 < bits },
    ghost finite: { bits < 9218868437227405312 },
}

// A magnitude of m * 2 ^ y.
#[derive(Clone, Copy)]
struct Significand {
    m: u64,
    y: u64,
}

// A magnitude of a * 2 ^ 52 * 4 ^ k, where a has 53 or 54 binary digits: so the whole root of a * 2 ^ 52 has 53.
#[derive(Clone, Copy)]
struct Scaled {
    a: u64,
    k: u64,
    ghost a_from: { 4503599627370496 ≤ a },
    ghost a_below: { a < 18014398509481984 },
}

// A whole root and what is left over.
#[derive(Clone, Copy)]
struct WholeRoot {
    q: u64,
    r: u64,
}

// The digits of a number below the smallest normal one, moved up until the leading one is in its place.
fn normalize(t: u64) -> Significand
    requires t_nonzero { 0 < t }
    requires t_bound { t < 4503599627370496 }
    ensures { Significant t result.m result.y }
{
    // Eleven zeros stand before the leading digit's place.
    let up = t.leading_zeros() - 11;
    Significand {
        m: t << up,
        y: 1074 - up as u64,
    }
}

// The significand and the exponent of a positive number's pattern.
fn significand_of(x: Positive) -> Significand
    ensures { Significant x.bits result.m result.y }
{
    let field = x.bits / HID;
    if field == 0 {
        return normalize(x.bits);
    }
    Significand {
        m: HID + x.bits % HID,
        y: field + 1073,
    }
}

// An even exponent is a power of four, and an odd one leaves a factor of two.
fn scale(x: Positive) -> Scaled
    ensures { Scales x.bits result.a result.k }
{
    let s = significand_of(x);
    let m = s.m;
    let y = s.y;
    let k = (y - 52) / 2;
    if y % 2 == 0 {
        return Scaled { a: m, k };
    }
    Scaled { a: m * 2, k }
}

// The whole root of a * 2 ^ 52, two binary digits of the number for each digit of the root.
fn digits(s: Scaled) -> WholeRoot
    ensures { Rooted s.a result.q result.r }
{
    let mut q: u64 = 0;
    let mut r: u64 = 0;
    let mut left = s.a;
    for _ in 0..53u64 {
        r = r * 4 + left / HID;
        left = left % HID * 4;
        let step = q * 4 + 1;
        q = q * 2;
        if step <= r {
            r = r - step;
            q = q + 1;
        }
    }
    WholeRoot { q, r }
}

// q or the next number up: by how the part above q compares with a half, and at a tie to the even one.
fn nearest_even(q: u64, part: u64, half: u64) -> u64
    requires { q < 9223372036854775808 }
    ensures { result ≡ nearest q (compare part half) }
{
    if part < half {
        return q;
    }
    if half < part {
        return q + 1;
    }
    if q % 2 == 0 { q } else { q + 1 }
}

// The root of a * 2 ^ 52, rounded, by way of its digits.
fn digit_root(s: Scaled) -> u64
    ensures { RoundedRoot s.a result }
{
    let w = digits(s);
    nearest_even(w.q, w.r * 4, w.q * 4 + 1)
}

// The 53 leading digits of the root, rounded: nearly always so for a normal number's pattern, and nothing rests on it.
// x is the number times a power of four, from 1 / 2 to 2, and z is 1 / √x but for 2 ^ -21 of it.
// t is the root of x but for 2 ^ -21, and so short that t * t and r are exact. t + r / (t + root) is the root, and 2 *
// t + r * z / 2 is near t + root.
fn guess(bits: u64) -> u64
    ensures { result < 9007199254740992 }
{
    let p = bits % (2 * HID) + 1022 * HID;
    let x = f64::from_bits(p);
    let s = f64::from_bits(START - p / 2);
    let y = 1.188925 * s - x * s * (s * s);
    let z = 3.008115 * y - 4.032544 * x * y * (y * y);
    let t = x * z + CUT - CUT;
    let r = x - t * t;
    let g = t + r / (2.0 * t + 0.5 * z * r);
    if g.is_nan() {
        return HID;
    }
    HID + f64::to_bits(g) % HID
}

// Whether n is the root of a * 2 ^ 52, rounded: whether a * 2 ^ 52 + n is above n * n, by 2 * n at most.
// n is h / 2 * 2 ^ 27 + l, and the three parts of n * n are taken off one by one, with 4 * 2 ^ 52 lent.
// Where n is right little is left each time, so a rest that is too large to go on with says no.
fn is_nearest(s: Scaled, n: u64) -> bool
    requires n_bound { n < 9007199254740992 }
    ensures { result ≡ true → RoundedRoot s.a n }
{
    let h = n / 134217728 * 2;
    let l = n % 134217728;
    let lent = s.a + 4;
    let top = h * h;
    if lent < top {
        return false;
    }
    let d = lent - top;
    if 1073741824 <= d {
        return false;
    }
    let rest = d * 33554432;
    let cross = h * l;
    if rest < cross {
        return false;
    }
    let e = rest - cross;
    if 1073741824 <= e {
        return false;
    }
    let have = e * 134217728;
    let take = l * l + (4 * HID - n);
    if have <= take {
        return false;
    }
    have - take <= n * 2
}

// The root of a * 2 ^ 52, rounded: n, where it is that, and otherwise by way of the digits.
fn rounded_root(s: Scaled, n: u64) -> u64
    requires n_bound { n < 9007199254740992 }
    ensures { RoundedRoot s.a result }
{
    if is_nearest(s, n) {
        return n;
    }
    digit_root(s)
}

// The root of a positive number, from its pattern.
fn positive_root(x: Positive) -> f64
    ensures { result ≡ sqrt binary64 (of_bits binary64 x.bits) }
{
    let s = scale(x);
    let n = rounded_root(s, guess(x.bits));
    f64::from_bits(s.k * HID + n)
}

// The square root of x, rounded to nearest, a tie to even.
pub fn root(x: f64) -> f64
    ensures { result ≡ sqrt binary64 x }
{
    if x.is_nan() {
        return x;
    }
    let bits = f64::to_bits(x);
    if bits % SIGN == 0 {
        return x;
    }
    if SIGN <= bits {
        return 0.0 / 0.0;
    }
    if bits == INFINITY {
        return x;
    }
    positive_root(Positive { bits })
}
