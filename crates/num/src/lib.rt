// The numbers under everything else: what Rust's library does with an `f64` and Rattle's does not. Every public function takes every float, NaN and
// infinities too, and its promise says the one answer; of the private ones that make up the root and the remainder some ask for a range of their caller.
// Meanings: specs/Num.antt (floor to remainder), specs/Order.antt (total order), specs/Root.antt (square root).
// IEEE 754-2019 decides floor, ceiling, total order and root; the pages of Rust's library decide the rest.
#![tactic(auto)]

ghost use Rattle.std.specs.Prelude.{◌≡◌, ◌*◌, ◌/◌, ◌%◌, ◌-◌, ◌^◌, ◌<◌, ◌≤◌, false, from_bits, is_nan, to_bits};
ghost use Rattle.std.specs.Float.{binary64};
ghost use Rattle.std.specs.Float.Ieee.{rem, round, to_unsigned, to_signed};
ghost use Rattle.num.specs.Num.{floor_of, ceil_of, abs_of, min_of, max_of, clamp_of, rem_euclid_of};
ghost use Rattle.num.specs.Order.{is_minus_zero, order_of};
ghost use Rattle.num.specs.Root.{RootOf, root_at, sqrt_of};

use std::cmp::Ordering;

// `f64::floor`: IEEE 754's roundToIntegralTowardNegative. From 2^52 on a float has no fraction.
pub fn floor(x: f64) -> f64
    ensures { result ≡ floor_of x }
{
    if x > 0.0 {
        if x < 4503599627370496.0 {
            return std::num::nearest_u64_to_f64(std::num::truncating_f64_to_u64(x));
        }
        return x;
    }
    if x < 0.0 {
        if x > -4503599627370496.0 {
            let n = std::num::truncating_f64_to_u64(-x);
            let t = std::num::nearest_u64_to_f64(n);
            if t == -x {
                return x;
            }
            return -std::num::nearest_u64_to_f64(n + 1);
        }
        return x;
    }
    x
}

// `f64::is_nan`: only a NaN differs from itself.
pub fn is_nan(x: f64) -> bool
    ensures { result ≡ is_nan x }
{
    x != x
}

// `f64::ceil`: roundToIntegralTowardPositive.
pub fn ceil(x: f64) -> f64
    ensures { result ≡ ceil_of x }
{
    -floor(-x)
}

// `f64::abs`. The test of zero clears the sign of minus zero.
pub fn abs(x: f64) -> f64
    ensures { result ≡ abs_of x }
{
    if x < 0.0 {
        return -x;
    }
    if x == 0.0 {
        return 0.0;
    }
    x
}

// `f64::min`: of a NaN and a number, the number.
pub fn min(x: f64, y: f64) -> f64
    ensures { result ≡ min_of x y }
{
    if y < x {
        return y;
    }
    if is_nan(x) {
        return y;
    }
    x
}

// `f64::max`: of a NaN and a number, the number.
pub fn max(x: f64, y: f64) -> f64
    ensures { result ≡ max_of x y }
{
    if x < y {
        return y;
    }
    if is_nan(x) {
        return y;
    }
    x
}

// `f64::clamp`: a NaN stays. Where Rust panics, for ends that are NaN or turned, the same tests decide.
pub fn clamp(x: f64, lo: f64, hi: f64) -> f64
    ensures { result ≡ clamp_of x lo hi }
{
    if x < lo {
        return lo;
    }
    if x > hi {
        return hi;
    }
    x
}

// Only a division tells the zeros apart.
fn is_minus_zero(x: f64) -> bool
    ensures { result ≡ is_minus_zero x }
{
    if x == 0.0 {
        return 1.0 / x < 0.0;
    }
    false
}

// `f64::total_cmp`: IEEE 754's totalOrder. Every NaN counts as the same positive one and comes last.
pub fn total_cmp(x: f64, y: f64) -> Ordering
    ensures { result ≡ order_of x y }
{
    if x < y {
        return Ordering::Less;
    }
    if y < x {
        return Ordering::Greater;
    }
    if x == y {
        if is_minus_zero(x) {
            if is_minus_zero(y) {
                return Ordering::Equal;
            }
            return Ordering::Less;
        }
        if is_minus_zero(y) {
            return Ordering::Greater;
        }
        return Ordering::Equal;
    }
    if is_nan(x) {
        if is_nan(y) {
            return Ordering::Equal;
        }
        return Ordering::Greater;
    }
    Ordering::Less
}

// `x as u64` and `x as usize`: cut toward zero, held to the type's ends, 0 for a NaN.
pub fn to_u64(x: f64) -> u64
    ensures { result ≡ to_unsigned 64 x }
{
    if x > -1.0 {
        if x < 18446744073709551616.0 {
            return std::num::truncating_f64_to_u64(x);
        }
        return 18446744073709551615;
    }
    0
}

// `x as i64` and `x as isize`: likewise.
pub fn to_i64(x: f64) -> i64
    ensures { result ≡ to_signed 63 x }
{
    if x >= -9223372036854775808.0 {
        if x < 9223372036854775808.0 {
            return std::num::truncating_f64_to_i64(x);
        }
        return 9223372036854775807;
    }
    if is_nan(x) {
        return 0;
    }
    -9223372036854775808
}

// `f64::to_bits`. Every NaN has the one pattern 0x7ff8_0000_0000_0000.
pub fn to_bits(x: f64) -> u64
    ensures { result ≡ to_bits binary64 x }
{
    if is_nan(x) {
        return 0x7ff8_0000_0000_0000;
    }
    f64::to_bits(x)
}

// `f64::from_bits`.
pub fn from_bits(b: u64) -> f64
    ensures { result ≡ from_bits binary64 b }
{
    if 0x7ff0_0000_0000_0000 < b % 0x8000_0000_0000_0000 {
        return 0.0 / 0.0;
    }
    f64::from_bits(b)
}

// The exponent in the bit pattern of a float that is not negative: the float is (b - 2^52 * exponent) * 2^exponent of the smallest ones.
fn exponent(b: u64) -> u64
    ensures { result ≡ b / 2 ^ 52 - 1 }
{
    if b < 4503599627370496 {
        return 0;
    }
    b / 4503599627370496 - 1
}

// The remainder of a * 2^n by d: long division, a binary digit at a time.
fn long_remainder(a: u64, n: u64, d: u64) -> u64
    requires { (0 < d) × (d < 9007199254740992) }
    ensures { result ≡ a * 2 ^ n % d }
{
    let mut r = a % d;
    for _ in 0..n {
        r = 2 * r % d;
    }
    r
}

// The bit pattern of the float that is m * 2^k of the smallest ones.
fn pattern(m: u64, k: u64) -> u64
    requires { (m < 9007199254740992) × (k ≤ 2045) }
    ensures { result ≡ to_bits binary64 (round binary64 false (m * 2 ^ k) (2 ^ 1074)) }
{
    let mut z = m;
    let mut q = k;
    while q > 0 && z < 4503599627370496 {
        z *= 2;
        q -= 1;
    }
    q * 4503599627370496 + z
}

// Rust's `%`: IEEE 754's remainder by a quotient cut toward zero, exact. In whole numbers, so that a program needs no `fmod` of a C library.
fn rem(x: f64, y: f64) -> f64
    ensures { result ≡ rem binary64 x y }
{
    let b = to_bits(x);
    let bx = b % 0x8000_0000_0000_0000;
    let by = to_bits(y) % 0x8000_0000_0000_0000;
    if bx >= 0x7ff0_0000_0000_0000 {
        return 0.0 / 0.0;
    }
    if by > 0x7ff0_0000_0000_0000 {
        return 0.0 / 0.0;
    }
    if by == 0x7ff0_0000_0000_0000 {
        return x;
    }
    if by == 0 {
        return 0.0 / 0.0;
    }
    let kx = exponent(bx);
    let ky = exponent(by);
    // Then y has all 53 digits, and x is smaller.
    if kx < ky {
        return x;
    }
    let r = long_remainder(
        bx - kx * 4503599627370496,
        kx - ky,
        by - ky * 4503599627370496,
    );
    let v = from_bits(pattern(r, ky));
    if b >= 0x8000_0000_0000_0000 {
        return -v;
    }
    v
}

// `f64::rem_euclid`: the least remainder that is not negative. It can round up to |y| itself.
pub fn rem_euclid(x: f64, y: f64) -> f64
    ensures { result ≡ rem_euclid_of x y }
{
    let r = rem(x, y);
    if r < 0.0 {
        return r + abs(y);
    }
    r
}

// The root of m, cut to a whole number. The floats only guess it: nothing rests on them.
fn root54(m: u64) -> u64
    requires { m < 18014398509481984 }
    ensures { RootOf m result }
{
    let t = std::num::nearest_u64_to_f64(m);
    let y0 = 34799612.03 + t * (0.000000007838155191 - t * 1.30827258726e-25);
    let y1 = 0.5 * (y0 + t / y0);
    let y2 = 0.5 * (y1 + t / y1);
    let mut c = to_u64(y2);
    if c > 134217727 {
        c = 134217727;
    }
    while c * c > m {
        c -= 1;
    }
    while (c + 1) * (c + 1) <= m {
        c += 1;
    }
    c
}

// The root of m * 2^54, cut to a whole number: from the root of m and one division.
fn root108(m: u64) -> u64
    requires { (4503599627370496 ≤ m) × (m < 18014398509481984) }
    ensures { RootOf (m * 2 ^ 54) result }
{
    let a = root54(m);
    let d = (m - a * a) * 134217728;
    let q = d / (2 * a);
    let v = d % (2 * a);
    let s = a * 134217728 + q;
    if q * q <= v * 134217728 {
        return s;
    }
    s - 1
}

// The bit pattern of the root of n * 2^h / 2^1074.
fn root_bits(n: u64, h: u64) -> u64
    requires { (0 < n) × (n < 9007199254740992) × (h ≤ 2046) }
    ensures { result ≡ to_bits binary64 (root_at n h) }
{
    let z = (u64::leading_zeros(n) as u64) - 11;
    let p = z + (h + z) % 2;
    let m = n << p;
    let s = root108(m);
    ((h + 1020 - p) / 2 + 1) * 4503599627370496 + (s + 1) / 2
}

// `f64::sqrt`: IEEE 754's squareRoot, correctly rounded (proofs/SquareRoot.antt).
pub fn sqrt(x: f64) -> f64
    ensures { result ≡ sqrt_of x }
{
    if x > 0.0 {
        if x < 1.0 / 0.0 {
            let b = f64::to_bits(x);
            let f = b / 4503599627370496;
            let t = b % 4503599627370496;
            if f == 0 {
                return f64::from_bits(root_bits(t, 0));
            }
            return f64::from_bits(root_bits(t + 4503599627370496, f - 1));
        }
        return x;
    }
    if x == 0.0 {
        return x;
    }
    0.0 / 0.0
}
