// The C interface: numbers and slices only, each function one call of the library under it and with its promise.
// The oracle (oracle/) calls these, so that it compares and times what users would link.
// An answer that is an enum or a bool becomes a number, by a definition of specs/Numbers.antt.
#![tactic(auto)]

mod numbers;
pub mod plane;

ghost use Rattle.std.specs.Prelude.{◌≡◌};
ghost use Rattle.std.specs.Float.Ieee.{is_nan, to_unsigned, to_signed};
ghost use Rattle.num.specs.Num.{floor_of, ceil_of, abs_of, min_of, max_of, clamp_of, rem_euclid_of};
ghost use Rattle.num.specs.Order.{order_of};
ghost use Rattle.num.specs.Root.{sqrt_of};
ghost use Rattle.angle.specs.Angles.{sin_of, cos_of, atan2_of, acos_of};
ghost use Rattle.rng.specs.Rng.{new_of, next_u64_of, next_f64_of, range_of};
ghost use Rattle.exports.specs.Numbers.{bit, place};

use rng::Rng;
use std::cmp::Ordering;

// ---- num

#[unsafe(no_mangle)]
pub extern "C" fn bf_floor(x: f64) -> f64
    ensures { result ≡ floor_of x }
{
    num::floor(x)
}

#[unsafe(no_mangle)]
pub extern "C" fn bf_ceil(x: f64) -> f64
    ensures { result ≡ ceil_of x }
{
    num::ceil(x)
}

#[unsafe(no_mangle)]
pub extern "C" fn bf_abs(x: f64) -> f64
    ensures { result ≡ abs_of x }
{
    num::abs(x)
}

#[unsafe(no_mangle)]
pub extern "C" fn bf_is_nan(x: f64) -> u32
    ensures { result ≡ bit (is_nan x) }
{
    numbers::bit(num::is_nan(x))
}

#[unsafe(no_mangle)]
pub extern "C" fn bf_min(x: f64, y: f64) -> f64
    ensures { result ≡ min_of x y }
{
    num::min(x, y)
}

#[unsafe(no_mangle)]
pub extern "C" fn bf_max(x: f64, y: f64) -> f64
    ensures { result ≡ max_of x y }
{
    num::max(x, y)
}

#[unsafe(no_mangle)]
pub extern "C" fn bf_clamp(x: f64, lo: f64, hi: f64) -> f64
    ensures { result ≡ clamp_of x lo hi }
{
    num::clamp(x, lo, hi)
}

#[unsafe(no_mangle)]
pub extern "C" fn bf_to_u64(x: f64) -> u64
    ensures { result ≡ to_unsigned 64 x }
{
    num::to_u64(x)
}

#[unsafe(no_mangle)]
pub extern "C" fn bf_to_i64(x: f64) -> i64
    ensures { result ≡ to_signed 63 x }
{
    num::to_i64(x)
}

#[unsafe(no_mangle)]
pub extern "C" fn bf_total_cmp(x: f64, y: f64) -> u32
    ensures { result ≡ place (order_of x y) }
{
    match num::total_cmp(x, y) {
        Ordering::Less => 0,
        Ordering::Equal => 1,
        Ordering::Greater => 2,
    }
}

#[unsafe(no_mangle)]
pub extern "C" fn bf_rem_euclid(x: f64, y: f64) -> f64
    ensures { result ≡ rem_euclid_of x y }
{
    num::rem_euclid(x, y)
}

#[unsafe(no_mangle)]
pub extern "C" fn bf_sqrt(x: f64) -> f64
    ensures { result ≡ sqrt_of x }
{
    num::sqrt(x)
}

// ---- angle

#[unsafe(no_mangle)]
pub extern "C" fn bf_sin(x: f64) -> f64
    ensures { result ≡ sin_of x }
{
    angle::sin(x)
}

#[unsafe(no_mangle)]
pub extern "C" fn bf_cos(x: f64) -> f64
    ensures { result ≡ cos_of x }
{
    angle::cos(x)
}

#[unsafe(no_mangle)]
pub extern "C" fn bf_sin_cos(x: f64, sin: &mut f64, cos: &mut f64)
    ensures { (sin.new ≡ sin_of x) × (cos.new ≡ cos_of x) }
{
    let both = angle::sin_cos(x);
    *sin = both.sin;
    *cos = both.cos;
}

#[unsafe(no_mangle)]
pub extern "C" fn bf_atan2(y: f64, x: f64) -> f64
    ensures { result ≡ atan2_of y x }
{
    angle::atan2(y, x)
}

#[unsafe(no_mangle)]
pub extern "C" fn bf_acos(x: f64) -> f64
    ensures { result ≡ acos_of x }
{
    angle::acos(x)
}

// ---- rng: the state goes in as a number, and the state after the draw is left in `next`

#[unsafe(no_mangle)]
pub extern "C" fn bf_rng_next_u64(state: u64, next: &mut u64) -> u64
    ensures { (result ≡ (next_u64_of (new_of state)).value) × (next.new ≡ (next_u64_of (new_of state)).rng.0) }
{
    let mut rng = Rng::new(state);
    let value = rng.next_u64();
    *next = rng.0;
    value
}

#[unsafe(no_mangle)]
pub extern "C" fn bf_rng_next_f64(state: u64, next: &mut u64) -> f64
    ensures { (result ≡ (next_f64_of (new_of state)).value) × (next.new ≡ (next_f64_of (new_of state)).rng.0) }
{
    let mut rng = Rng::new(state);
    let value = rng.next_f64();
    *next = rng.0;
    value
}

#[unsafe(no_mangle)]
pub extern "C" fn bf_rng_range(state: u64, lo: u64, hi: u64, next: &mut u64) -> u64
    ensures { (result ≡ (range_of (new_of state) lo hi).value) × (next.new ≡ (range_of (new_of state) lo hi).rng.0) }
{
    let mut rng = Rng::new(state);
    let value = rng.range(lo, hi);
    *next = rng.0;
    value
}
