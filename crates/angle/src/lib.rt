// Our own sine, cosine, atan2 and acos: one written list of float operations (docs/ANGLES.md), spelt out in specs/Angles.antt.
// Only `+ - * /`, negation and comparisons, one rounding each, and in acos one square root: the same bits on every machine.
// Document 01 allows a difference of 2^-40 from the Rust's; docs/DIFFERENCES.md has the greatest that was met.
#![tactic(auto)]

ghost use Rattle.std.specs.Prelude.{◌≡◌};
ghost use Rattle.std.specs.Float.Ieee.{neg};
ghost use Rattle.angle.specs.Angles.{sin_near, cos_near, turns, left, quadrant, pick, sin_far, cos_far, sin_of, cos_of, tail, shift, arc, small, ratio, flat, steep, half_turn, size_of, scaled, upper, leftward, on_axis, atan2_of, acos_of};

const K_S3: f64 = 0.16666666666666666;

const K_S5: f64 = 0.008333333333333333;

const K_S7: f64 = 0.0001984126984126984;

const K_S9: f64 = 2.7557319223985893e-06;

const K_S11: f64 = 2.505210838544172e-08;

const K_S13: f64 = 1.6059043836821613e-10;

const K_S15: f64 = 7.647163731819816e-13;

const K_S17: f64 = 2.8114572543455206e-15;

const K_C2: f64 = 0.5;

const K_C4: f64 = 0.041666666666666664;

const K_C6: f64 = 0.001388888888888889;

const K_C8: f64 = 2.48015873015873e-05;

const K_C10: f64 = 2.755731922398589e-07;

const K_C12: f64 = 2.08767569878681e-09;

const K_C14: f64 = 1.1470745597729725e-11;

const K_C16: f64 = 4.779477332387385e-14;

const K_A3: f64 = 0.3333333333333333;

const K_A5: f64 = 0.2;

const K_A7: f64 = 0.14285714285714285;

const K_A9: f64 = 0.1111111111111111;

const K_A11: f64 = 0.09090909090909091;

const K_A13: f64 = 0.07692307692307693;

const K_A15: f64 = 0.06666666666666667;

const K_A17: f64 = 0.058823529411764705;

const K_ZERO: f64 = 0.0;

const K_ONE: f64 = 1.0;

const K_MINUS_ONE: f64 = -1.0;

const K_FOUR: f64 = 4.0;

const K_EIGHTH: f64 = 0.125;

const K_QUARTER: f64 = 0.25;

const K_THREE8: f64 = 0.375;

const K_HALF: f64 = 0.5;

const K_FIVE8: f64 = 0.625;

const K_THREE4: f64 = 0.75;

const K_SEVEN8: f64 = 0.875;

const K_MAGIC: f64 = 6755399441055744.0;

const K_TWO_OVER_PI: f64 = 0.6366197723675814;

const K_MINUS_PI4: f64 = -0.7853981633974483;

const K_PI4: f64 = 0.7853981633974483;

const K_PI4_LO: f64 = 3.061616997868383e-17;

const K_PI2: f64 = 1.5707963267948966;

const K_PI2_LO: f64 = 6.123233995736766e-17;

const K_PI: f64 = 3.141592653589793;

const K_PI_LO: f64 = 1.2246467991473532e-16;

const K_MINUS_PI: f64 = -3.141592653589793;

const K_CUT1: f64 = 1.5707963267948912;

const K_CUT2: f64 = 5.390302858158031e-15;

const K_CUT3: f64 = 8.843720566135701e-29;

const K_AT14: f64 = 0.24497866312686414;

const K_AT14_LO: f64 = 1.0698755618734451e-17;

const K_AT12: f64 = 0.4636476090008061;

const K_AT12_LO: f64 = 2.2698777452961687e-17;

const K_AT34: f64 = 0.6435011087932844;

const K_AT34_LO: f64 = 1.5834785051444286e-17;

const K_TINY: f64 = 3.054936363499605e-151;

const K_HUGE: f64 = 3.273390607896142e+150;

// The series through degree 17, for r from -pi/4 to pi/4. Every p stays positive.
fn sin_near(r: f64) -> f64
    ensures { result ≡ sin_near r }
{
    let z = r * r;
    let p = K_S15 - K_S17 * z;
    let p = K_S13 - p * z;
    let p = K_S11 - p * z;
    let p = K_S9 - p * z;
    let p = K_S7 - p * z;
    let p = K_S5 - p * z;
    let p = K_S3 - p * z;
    r * (K_ONE - p * z)
}

// Through degree 16.
fn cos_near(r: f64) -> f64
    ensures { result ≡ cos_near r }
{
    let z = r * r;
    let p = K_C14 - K_C16 * z;
    let p = K_C12 - p * z;
    let p = K_C10 - p * z;
    let p = K_C8 - p * z;
    let p = K_C6 - p * z;
    let p = K_C4 - p * z;
    let p = K_C2 - p * z;
    K_ONE - p * z
}

// The nearest whole number of quarter turns: adding and taking away 1.5 * 2^52 drops the fraction.
fn turns_in(x: f64) -> f64
    ensures { result ≡ turns x }
{
    (x * K_TWO_OVER_PI + K_MAGIC) - K_MAGIC
}

// x less k quarter turns, pi / 2 in three parts so that the first two products are exact.
fn left_over(x: f64, k: f64) -> f64
    ensures { result ≡ left x k }
{
    ((x - k * K_CUT1) - k * K_CUT2) - k * K_CUT3
}

// k modulo 4, as -2, -1, 0, 1 or 2.
fn quadrant_of(k: f64) -> f64
    ensures { result ≡ quadrant k }
{
    k - K_FOUR * ((k * K_QUARTER + K_MAGIC) - K_MAGIC)
}

// A sine and a cosine.
#[derive(Clone, Copy)]
pub struct SinCos {
    pub sin: f64,
    pub cos: f64,
}

// The sine s and the cosine c, turned on by q quarter turns.
fn turned(q: f64, s: f64, c: f64) -> SinCos
    ensures { (result.sin ≡ pick q s c (neg c) (neg s)) × (result.cos ≡ pick q c (neg s) s (neg c)) }
{
    if q == K_ZERO {
        return SinCos { sin: s, cos: c };
    }
    if q == K_ONE {
        return SinCos { sin: c, cos: -s };
    }
    if q == K_MINUS_ONE {
        return SinCos { sin: -c, cos: s };
    }
    SinCos { sin: -s, cos: -c }
}

fn sin_cos_near(r: f64) -> SinCos
    ensures { (result.sin ≡ sin_near r) × (result.cos ≡ cos_near r) }
{
    SinCos {
        sin: sin_near(r),
        cos: cos_near(r),
    }
}

fn sin_cos_far(x: f64) -> SinCos
    ensures { (result.sin ≡ sin_far x) × (result.cos ≡ cos_far x) }
{
    let k = turns_in(x);
    let r = left_over(x, k);
    let q = quadrant_of(k);
    turned(q, sin_near(r), cos_near(r))
}

// `f64::sin_cos`: both from one reduction, for `Vec2::from_angle` is the hottest call of all.
pub fn sin_cos(x: f64) -> SinCos
    ensures { (result.sin ≡ sin_of x) × (result.cos ≡ cos_of x) }
{
    if (K_MINUS_PI4 <= x) & (x <= K_PI4) {
        return sin_cos_near(x);
    }
    sin_cos_far(x)
}

// `f64::sin`.
pub fn sin(x: f64) -> f64
    ensures { result ≡ sin_of x }
{
    sin_cos(x).sin
}

// `f64::cos`.
pub fn cos(x: f64) -> f64
    ensures { result ≡ cos_of x }
{
    sin_cos(x).cos
}

// What the series of the arc tangent takes away from w. Even and odd terms are summed apart, so that they run side by side.
fn tail_of(w: f64) -> f64
    ensures { result ≡ tail w }
{
    let z = w * w;
    let y = z * z;
    let even = K_A3 + (K_A7 + (K_A11 + K_A15 * y) * y) * y;
    let odd = K_A5 + (K_A9 + (K_A13 + K_A17 * y) * y) * y;
    (w * z) * (even - odd * z)
}

// The tangent of the angle that is left of atan(n / d) when atan(c) is taken away.
fn shifted(c: f64, n: f64, d: f64) -> f64
    ensures { result ≡ shift c n d }
{
    (n - c * d) / (d + c * n)
}

fn arc_of(hi: f64, lo: f64, w: f64) -> f64
    ensures { result ≡ arc hi lo w }
{
    hi + (w - (tail_of(w) - lo))
}

fn small_of(w: f64) -> f64
    ensures { result ≡ small w }
{
    w - tail_of(w)
}

// atan(n / d), for n from 0 to d: by the nearest quarter.
fn ratio_of(n: f64, d: f64) -> f64
    ensures { result ≡ ratio n d }
{
    if n < K_EIGHTH * d {
        return small_of(n / d);
    }
    if n < K_THREE8 * d {
        return arc_of(K_AT14, K_AT14_LO, shifted(K_QUARTER, n, d));
    }
    if n < K_FIVE8 * d {
        return arc_of(K_AT12, K_AT12_LO, shifted(K_HALF, n, d));
    }
    if n < K_SEVEN8 * d {
        return arc_of(K_AT34, K_AT34_LO, shifted(K_THREE4, n, d));
    }
    arc_of(K_PI4, K_PI4_LO, shifted(K_ONE, n, d))
}

// The angle for y at most |x|, from the ratio's arc r.
fn flat_of(r: f64, x: f64) -> f64
    ensures { result ≡ flat r x }
{
    if x < K_ZERO {
        return K_PI - (r - K_PI_LO);
    }
    r
}

// The angle for y above |x|.
fn steep_of(r: f64, x: f64) -> f64
    ensures { result ≡ steep r x }
{
    if x < K_ZERO {
        return K_PI2 + (r + K_PI2_LO);
    }
    K_PI2 - (r - K_PI2_LO)
}

// The angle of (x, b) where a is |x|, or both scaled alike.
fn half_turn_of(b: f64, a: f64, x: f64) -> f64
    ensures { result ≡ half_turn b a x }
{
    if b <= a {
        return flat_of(ratio_of(b, a), x);
    }
    steep_of(ratio_of(a, b), x)
}

// |x|, but minus zero stays.
fn size_of(x: f64) -> f64
    ensures { result ≡ size_of x }
{
    if x < K_ZERO {
        return -x;
    }
    x
}

// Where both are tiny they are scaled up first: subnormal floats have too few digits for the ratio.
fn scaled_of(a: f64, y: f64, x: f64) -> f64
    ensures { result ≡ scaled a y x }
{
    if a < K_TINY {
        if y < K_TINY {
            return half_turn_of(y * K_HUGE, a * K_HUGE, x);
        }
        return half_turn_of(y, a, x);
    }
    half_turn_of(y, a, x)
}

fn upper_of(y: f64, x: f64) -> f64
    ensures { result ≡ upper y x }
{
    scaled_of(size_of(x), y, x)
}

// x is below zero, or minus zero.
fn is_left(x: f64) -> bool
    ensures { result ≡ leftward x }
{
    if x == K_ZERO {
        return K_ONE / x < K_ZERO;
    }
    x < K_ZERO
}

fn on_axis(y: f64, x: f64) -> f64
    ensures { result ≡ on_axis y x }
{
    if is_left(x) {
        if K_ONE / y < K_ZERO {
            return K_MINUS_PI;
        }
        return K_PI;
    }
    y
}

// `f64::atan2`: the angle of (x, y), from -pi to pi.
pub fn atan2(y: f64, x: f64) -> f64
    ensures { result ≡ atan2_of y x }
{
    if y == K_ZERO {
        return on_axis(y, x);
    }
    if y < K_ZERO {
        return -upper_of(-y, x);
    }
    upper_of(y, x)
}

// `f64::acos`, by way of the right-angled triangle.
pub fn acos(x: f64) -> f64
    ensures { result ≡ acos_of x }
{
    atan2(num::sqrt((K_ONE - x) * (K_ONE + x)), x)
}
