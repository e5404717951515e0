// The calls by number: a group of a hundred for each crate, in the order of the Rust. `oracle/src/sample/small.rs` and the `calls.rs` or `lines.rs` of each module have the same numbers.
use crate::answer::Answer;
use crate::{answer, inner, plane};
use lines::{float, word};

// num, a number as the answer: 104, 108 and 110
fn answer_number(f: u64, x: f64, y: f64) -> Answer {
    match f {
        104 => answer::number(exports::bf_is_nan(x)),
        108 => answer::word(exports::bf_to_u64(x)),
        110 => answer::number(exports::bf_total_cmp(x, y)),
        _ => answer::nothing(),
    }
}

// num: 101 to 112
fn answer_num(f: u64, x: f64, y: f64, z: f64) -> Answer {
    let r = match f {
        101 => exports::bf_floor(x),
        102 => exports::bf_ceil(x),
        103 => exports::bf_abs(x),
        105 => exports::bf_min(x, y),
        106 => exports::bf_max(x, y),
        107 => exports::bf_clamp(x, y, z),
        111 => exports::bf_rem_euclid(x, y),
        112 => exports::bf_sqrt(x),
        _ => return answer_number(f, x, y),
    };
    answer::float(r)
}

// A sine and a cosine from one call: 203
fn answer_both(x: f64) -> Answer {
    let mut sin = 0.0;
    let mut cos = 0.0;
    exports::bf_sin_cos(x, &mut sin, &mut cos);
    answer::floats2([sin, cos])
}

// angle: 201 to 205
fn answer_angle(f: u64, x: f64, y: f64) -> Answer {
    let r = match f {
        201 => exports::bf_sin(x),
        202 => exports::bf_cos(x),
        203 => return answer_both(x),
        204 => exports::bf_atan2(x, y),
        205 => exports::bf_acos(x),
        _ => return answer::nothing(),
    };
    answer::float(r)
}

// rng: 301 to 303
fn answer_rng(f: u64, state: u64, lo: u64, hi: u64) -> Answer {
    let mut next: u64 = 0;
    match f {
        301 => {
            let v = exports::bf_rng_next_u64(state, &mut next);
            answer::both(v, next)
        }
        302 => {
            let x = exports::bf_rng_next_f64(state, &mut next);
            answer::float_state(x, next)
        }
        303 => {
            let v = exports::bf_rng_range(state, lo, hi, &mut next);
            answer::both(v, next)
        }
        _ => answer::nothing(),
    }
}

fn answer_numbers(f: u64, w: &[u64]) -> Answer {
    match f {
        0..=199 => answer_num(f, float(w, 1), float(w, 2), float(w, 3)),
        200..=299 => answer_angle(f, float(w, 1), float(w, 2)),
        300..=400 => answer_rng(f, word(w, 1), word(w, 2), word(w, 3)),
        _ => plane::answer_plane(f, w),
    }
}

// The results of the call that the first n words of w name, into out; how many there are, 0 where there is no such function.
pub(crate) fn answer(w: &[u64], n: usize, out: &mut [u64]) -> usize {
    if n == 0 {
        return 0;
    }
    let f = word(w, 0);
    if 500 < f {
        return inner::answer_inner(f, w, out);
    }
    answer::store(out, answer_numbers(f, w))
}
