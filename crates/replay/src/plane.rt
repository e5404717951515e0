// geom: 401 to 449. The words after the number are floats, but for the count of numbers before points.
ghost use Rattle.std.specs.Prelude.{◌<◌};

use crate::answer;
use crate::answer::Answer;
use exports::plane;
use lines::{float, word};

// Vec2, a float as its answer: 402 to 408
fn answer_vec2(f: u64, a: f64, b: f64, c: f64, d: f64) -> Answer {
    let r = match f {
        402 => plane::bf_vec2_dot(a, b, c, d),
        403 => plane::bf_vec2_cross(a, b, c, d),
        404 => plane::bf_vec2_length_sq(a, b),
        405 => plane::bf_vec2_length(a, b),
        406 => plane::bf_vec2_distance(a, b, c, d),
        407 => plane::bf_vec2_distance_sq(a, b, c, d),
        408 => plane::bf_vec2_angle(a, b),
        _ => return answer::nothing(),
    };
    answer::float(r)
}

// Vec2, a point as its answer: 401, 409 to 413
fn answer_point(f: u64, a: f64, b: f64, c: f64, d: f64, e: f64) -> Answer {
    let mut out = [0.0; 2];
    match f {
        401 => plane::bf_vec2_from_angle(a, &mut out),
        409 => plane::bf_vec2_lerp(a, b, c, d, e, &mut out),
        410 => plane::bf_vec2_add(a, b, c, d, &mut out),
        411 => plane::bf_vec2_sub(a, b, c, d, &mut out),
        412 => plane::bf_vec2_mul(a, b, c, &mut out),
        413 => plane::bf_vec2_neg(a, b, &mut out),
        _ => return answer::nothing(),
    }
    answer::floats2(out)
}

// Aabb, a box as its answer: 423 and 424
fn answer_box(f: u64, b: &[f64; 4], c: &[f64; 4], x: f64, y: f64) -> Answer {
    let mut out = [0.0; 4];
    match f {
        423 => plane::bf_aabb_include(b, x, y, &mut out),
        424 => plane::bf_aabb_union(b, c, &mut out),
        _ => return answer::nothing(),
    }
    answer::floats4(out)
}

// Aabb, a number as its answer: 425 to 430
fn answer_of_box(f: u64, b: &[f64; 4], c: &[f64; 4], x: f64, y: f64) -> Answer {
    match f {
        425 => answer::number(plane::bf_aabb_is_empty(b)),
        426 => answer::number(plane::bf_aabb_contains(b, x, y)),
        427 => answer::number(plane::bf_aabb_intersects(b, c)),
        428 => answer::float(plane::bf_aabb_distance_sq_to(b, x, y)),
        429 => answer::float(plane::bf_aabb_width(b)),
        430 => answer::float(plane::bf_aabb_height(b)),
        _ => answer::nothing(),
    }
}

// 422, and the two groups above
fn answer_boxes(f: u64, a: f64, b: f64, c: f64, d: f64, e: f64, g: f64, h: f64, k: f64) -> Answer {
    if f == 422 {
        let mut out = [0.0; 4];
        plane::bf_aabb_around(a, b, c, &mut out);
        return answer::floats4(out);
    }
    let first = [a, b, c, d];
    let second = [e, g, h, k];
    if f < 425 {
        return answer_box(f, &first, &second, e, g);
    }
    answer_of_box(f, &first, &second, e, g)
}

// A ray and segments: 442 to 444
fn answer_segment(
    f: u64,
    a: f64,
    b: f64,
    c: f64,
    d: f64,
    e: f64,
    g: f64,
    h: f64,
    k: f64,
) -> Answer {
    if f == 442 {
        let mut t = 0.0;
        let n = plane::bf_ray_segment(a, b, c, d, e, g, h, k, &mut t);
        return answer::number1(n, t);
    }
    if f == 443 {
        let mut out = [0.0; 2];
        let n = plane::bf_segment_intersection(a, b, c, d, e, g, h, k, &mut out);
        return answer::number2(n, out);
    }
    answer::number(plane::bf_segments_intersect(a, b, c, d, e, g, h, k))
}

// A segment and a circle, a segment and a point: 445 to 447
fn answer_circle(f: u64, a: f64, b: f64, c: f64, d: f64, e: f64, g: f64, h: f64) -> Answer {
    if f == 445 {
        let mut out = [0.0; 2];
        let n = plane::bf_clip_segment_to_disk(a, b, c, d, e, g, h, &mut out);
        return answer::number2(n, out);
    }
    if f == 446 {
        let mut out = [0.0; 4];
        let n = plane::bf_segment_circle_points(a, b, c, d, e, g, h, &mut out);
        return answer::number4(n, out);
    }
    answer::float(plane::bf_point_segment_distance(a, b, c, d, e, g))
}

// Up to 64 numbers of w from `first` on.
pub(crate) fn filled(w: &[u64], first: usize) -> [f64; 64]
    requires { first < 16 }
{
    let mut points = [0.0; 64];
    for (i, x) in points.iter_mut().enumerate() {
        *x = float(w, first + i);
    }
    points
}

fn answer_ring(f: u64, x: f64, y: f64, points: &[f64]) -> Answer {
    if f == 421 {
        let mut out = [0.0; 4];
        plane::bf_aabb_from_points(points, &mut out);
        return answer::floats4(out);
    }
    if f == 448 {
        return answer::number(plane::bf_point_in_polygon(x, y, points));
    }
    answer::float(plane::bf_signed_area(points))
}

// Points, their count at `at`: 421, 448 and 449. There is room for 64 numbers; over that is no answer.
fn answer_points(f: u64, w: &[u64], at: usize) -> Answer
    requires { at < 4 }
{
    let n = word(w, at);
    if 64 < n {
        return answer::nothing();
    }
    let points = filled(w, at + 1);
    let end = n as usize;
    answer_ring(f, float(w, 1), float(w, 2), &points[..end])
}

// What takes numbers alone.
fn answer_floats(f: u64, w: &[u64]) -> Answer {
    let a = float(w, 1);
    let b = float(w, 2);
    let c = float(w, 3);
    let d = float(w, 4);
    let e = float(w, 5);
    let g = float(w, 6);
    let h = float(w, 7);
    let k = float(w, 8);
    match f {
        402..=408 => answer_vec2(f, a, b, c, d),
        0..=413 => answer_point(f, a, b, c, d, e),
        414..=440 => answer_boxes(f, a, b, c, d, e, g, h, k),
        441 => answer::float(plane::bf_normalize_angle(a)),
        442..=444 => answer_segment(f, a, b, c, d, e, g, h, k),
        _ => answer_circle(f, a, b, c, d, e, g, h),
    }
}

pub(crate) fn answer_plane(f: u64, w: &[u64]) -> Answer {
    match f {
        448 => answer_points(f, w, 3),
        421 | 449 => answer_points(f, w, 1),
        0..=447 => answer_floats(f, w),
        _ => answer::nothing(),
    }
}
