// The C interface of `geom`, in its order. A point or a vector is two numbers; a box four, its low corner first; points are x and y by turns.
// On a miss every output is 0.
ghost use Rattle.std.specs.Prelude.{◌≡◌};
ghost use Rattle.geom.specs.Vec.{vec, from_angle_of, dot_of, cross_of, length_sq_of, length_of, distance_of, distance_sq_of, angle_of, lerp_of, add_of, sub_of, mul_of, neg_of};
ghost use Rattle.geom.specs.Box.{from_points_of, around_of, include_of, union_of, is_empty_of, contains_of, intersects_of, distance_sq_to_of, width_of, height_of};
ghost use Rattle.geom.specs.Segment.{normal_of, ray_segment_of, segment_intersection_of, segments_intersect_of, clip_segment_to_disk_of, segment_circle_points_of, point_segment_distance_of};
ghost use Rattle.geom.specs.Ring.{point_in_polygon_of, signed_area_of};
ghost use Rattle.exports.specs.Numbers.{bit, pair, box_four, box_of, hit, reach_of, met, point_of, met_both, points_of, part, part_of};

use crate::numbers;
use geom::{Aabb, Vec2};

// ---- Vec2

#[unsafe(no_mangle)]
pub extern "C" fn bf_vec2_from_angle(angle: f64, out: &mut [f64; 2])
    ensures { out.new ≡ pair (from_angle_of angle) }
{
    numbers::put2(out, Vec2::from_angle(angle));
}

#[unsafe(no_mangle)]
pub extern "C" fn bf_vec2_dot(ax: f64, ay: f64, bx: f64, by: f64) -> f64
    ensures { result ≡ dot_of (vec ax ay) (vec bx by) }
{
    Vec2 { x: ax, y: ay }.dot(Vec2 { x: bx, y: by })
}

#[unsafe(no_mangle)]
pub extern "C" fn bf_vec2_cross(ax: f64, ay: f64, bx: f64, by: f64) -> f64
    ensures { result ≡ cross_of (vec ax ay) (vec bx by) }
{
    Vec2 { x: ax, y: ay }.cross(Vec2 { x: bx, y: by })
}

#[unsafe(no_mangle)]
pub extern "C" fn bf_vec2_length_sq(x: f64, y: f64) -> f64
    ensures { result ≡ length_sq_of (vec x y) }
{
    Vec2 { x, y }.length_sq()
}

#[unsafe(no_mangle)]
pub extern "C" fn bf_vec2_length(x: f64, y: f64) -> f64
    ensures { result ≡ length_of (vec x y) }
{
    Vec2 { x, y }.length()
}

#[unsafe(no_mangle)]
pub extern "C" fn bf_vec2_distance(ax: f64, ay: f64, bx: f64, by: f64) -> f64
    ensures { result ≡ distance_of (vec ax ay) (vec bx by) }
{
    Vec2 { x: ax, y: ay }.distance(Vec2 { x: bx, y: by })
}

#[unsafe(no_mangle)]
pub extern "C" fn bf_vec2_distance_sq(ax: f64, ay: f64, bx: f64, by: f64) -> f64
    ensures { result ≡ distance_sq_of (vec ax ay) (vec bx by) }
{
    Vec2 { x: ax, y: ay }.distance_sq(Vec2 { x: bx, y: by })
}

#[unsafe(no_mangle)]
pub extern "C" fn bf_vec2_angle(x: f64, y: f64) -> f64
    ensures { result ≡ angle_of (vec x y) }
{
    Vec2 { x, y }.angle()
}

#[unsafe(no_mangle)]
pub extern "C" fn bf_vec2_lerp(ax: f64, ay: f64, bx: f64, by: f64, t: f64, out: &mut [f64; 2])
    ensures { out.new ≡ pair (lerp_of (vec ax ay) (vec bx by) t) }
{
    numbers::put2(out, Vec2 { x: ax, y: ay }.lerp(Vec2 { x: bx, y: by }, t));
}

#[unsafe(no_mangle)]
pub extern "C" fn bf_vec2_add(ax: f64, ay: f64, bx: f64, by: f64, out: &mut [f64; 2])
    ensures { out.new ≡ pair (add_of (vec ax ay) (vec bx by)) }
{
    numbers::put2(out, Vec2 { x: ax, y: ay }.add(Vec2 { x: bx, y: by }));
}

#[unsafe(no_mangle)]
pub extern "C" fn bf_vec2_sub(ax: f64, ay: f64, bx: f64, by: f64, out: &mut [f64; 2])
    ensures { out.new ≡ pair (sub_of (vec ax ay) (vec bx by)) }
{
    numbers::put2(out, Vec2 { x: ax, y: ay }.sub(Vec2 { x: bx, y: by }));
}

#[unsafe(no_mangle)]
pub extern "C" fn bf_vec2_mul(x: f64, y: f64, s: f64, out: &mut [f64; 2])
    ensures { out.new ≡ pair (mul_of (vec x y) s) }
{
    numbers::put2(out, Vec2 { x, y }.mul(s));
}

#[unsafe(no_mangle)]
pub extern "C" fn bf_vec2_neg(x: f64, y: f64, out: &mut [f64; 2])
    ensures { out.new ≡ pair (neg_of (vec x y)) }
{
    numbers::put2(out, Vec2 { x, y }.neg());
}

// ---- Aabb

#[unsafe(no_mangle)]
pub extern "C" fn bf_aabb_from_points(points: &[f64], out: &mut [f64; 4])
    ensures { out.new ≡ box_four (from_points_of points.now) }
{
    numbers::put_box(out, Aabb::from_points(points));
}

#[unsafe(no_mangle)]
pub extern "C" fn bf_aabb_around(cx: f64, cy: f64, radius: f64, out: &mut [f64; 4])
    ensures { out.new ≡ box_four (around_of (vec cx cy) radius) }
{
    numbers::put_box(out, Aabb::around(Vec2 { x: cx, y: cy }, radius));
}

#[unsafe(no_mangle)]
pub extern "C" fn bf_aabb_include(b: &[f64; 4], x: f64, y: f64, out: &mut [f64; 4])
    ensures { out.new ≡ box_four (include_of (box_of b.now) (vec x y)) }
{
    numbers::put_box(out, numbers::box_of(b).include(Vec2 { x, y }));
}

#[unsafe(no_mangle)]
pub extern "C" fn bf_aabb_union(a: &[f64; 4], b: &[f64; 4], out: &mut [f64; 4])
    ensures { out.new ≡ box_four (union_of (box_of a.now) (box_of b.now)) }
{
    numbers::put_box(out, numbers::box_of(a).union(numbers::box_of(b)));
}

#[unsafe(no_mangle)]
pub extern "C" fn bf_aabb_is_empty(b: &[f64; 4]) -> u32
    ensures { result ≡ bit (is_empty_of (box_of b.now)) }
{
    numbers::bit(numbers::box_of(b).is_empty())
}

#[unsafe(no_mangle)]
pub extern "C" fn bf_aabb_contains(b: &[f64; 4], x: f64, y: f64) -> u32
    ensures { result ≡ bit (contains_of (box_of b.now) (vec x y)) }
{
    numbers::bit(numbers::box_of(b).contains(Vec2 { x, y }))
}

#[unsafe(no_mangle)]
pub extern "C" fn bf_aabb_intersects(a: &[f64; 4], b: &[f64; 4]) -> u32
    ensures { result ≡ bit (intersects_of (box_of a.now) (box_of b.now)) }
{
    numbers::bit(numbers::box_of(a).intersects(numbers::box_of(b)))
}

#[unsafe(no_mangle)]
pub extern "C" fn bf_aabb_distance_sq_to(b: &[f64; 4], x: f64, y: f64) -> f64
    ensures { result ≡ distance_sq_to_of (box_of b.now) (vec x y) }
{
    numbers::box_of(b).distance_sq_to(Vec2 { x, y })
}

#[unsafe(no_mangle)]
pub extern "C" fn bf_aabb_width(b: &[f64; 4]) -> f64
    ensures { result ≡ width_of (box_of b.now) }
{
    numbers::box_of(b).width()
}

#[unsafe(no_mangle)]
pub extern "C" fn bf_aabb_height(b: &[f64; 4]) -> f64
    ensures { result ≡ height_of (box_of b.now) }
{
    numbers::box_of(b).height()
}

// ---- angles, rays, segments, circles, polygons

#[unsafe(no_mangle)]
pub extern "C" fn bf_normalize_angle(a: f64) -> f64
    ensures { result ≡ normal_of a }
{
    geom::normalize_angle(a)
}

#[unsafe(no_mangle)]
pub extern "C" fn bf_ray_segment(
    ox: f64,
    oy: f64,
    dx: f64,
    dy: f64,
    ax: f64,
    ay: f64,
    bx: f64,
    by: f64,
    t: &mut f64,
) -> u32
    ensures value { result ≡ hit (ray_segment_of (vec ox oy) (vec dx dy) (vec ax ay) (vec bx by)) }
    ensures t_after { t.new ≡ reach_of (ray_segment_of (vec ox oy) (vec dx dy) (vec ax ay) (vec bx by)) }
{
    let m = geom::ray_segment(
        Vec2 { x: ox, y: oy },
        Vec2 { x: dx, y: dy },
        Vec2 { x: ax, y: ay },
        Vec2 { x: bx, y: by },
    );
    *t = numbers::reach_of(m);
    numbers::hit(m)
}

#[unsafe(no_mangle)]
pub extern "C" fn bf_segment_intersection(
    p1x: f64,
    p1y: f64,
    p2x: f64,
    p2y: f64,
    p3x: f64,
    p3y: f64,
    p4x: f64,
    p4y: f64,
    out: &mut [f64; 2],
) -> u32
    ensures value { result ≡ met (segment_intersection_of (vec p1x p1y) (vec p2x p2y) (vec p3x p3y) (vec p4x p4y)) }
    ensures out_after { out.new ≡ pair (point_of (segment_intersection_of (vec p1x p1y) (vec p2x p2y) (vec p3x p3y) (vec p4x p4y))) }
{
    let m = geom::segment_intersection(
        Vec2 { x: p1x, y: p1y },
        Vec2 { x: p2x, y: p2y },
        Vec2 { x: p3x, y: p3y },
        Vec2 { x: p4x, y: p4y },
    );
    numbers::put2(out, numbers::point_of(m));
    numbers::met(m)
}

#[unsafe(no_mangle)]
pub extern "C" fn bf_segments_intersect(
    p1x: f64,
    p1y: f64,
    p2x: f64,
    p2y: f64,
    p3x: f64,
    p3y: f64,
    p4x: f64,
    p4y: f64,
) -> u32
    ensures { result ≡ bit (segments_intersect_of (vec p1x p1y) (vec p2x p2y) (vec p3x p3y) (vec p4x p4y)) }
{
    numbers::bit(geom::segments_intersect(
        Vec2 { x: p1x, y: p1y },
        Vec2 { x: p2x, y: p2y },
        Vec2 { x: p3x, y: p3y },
        Vec2 { x: p4x, y: p4y },
    ))
}

#[unsafe(no_mangle)]
pub extern "C" fn bf_clip_segment_to_disk(
    ax: f64,
    ay: f64,
    bx: f64,
    by: f64,
    cx: f64,
    cy: f64,
    radius: f64,
    out: &mut [f64; 2],
) -> u32
    ensures value { result ≡ part (clip_segment_to_disk_of (vec ax ay) (vec bx by) (vec cx cy) radius) }
    ensures out_after { out.new ≡ pair (part_of (clip_segment_to_disk_of (vec ax ay) (vec bx by) (vec cx cy) radius)) }
{
    let c = geom::clip_segment_to_disk(
        Vec2 { x: ax, y: ay },
        Vec2 { x: bx, y: by },
        Vec2 { x: cx, y: cy },
        radius,
    );
    numbers::put2(out, numbers::part_of(c));
    numbers::part(c)
}

#[unsafe(no_mangle)]
pub extern "C" fn bf_segment_circle_points(
    ax: f64,
    ay: f64,
    bx: f64,
    by: f64,
    cx: f64,
    cy: f64,
    radius: f64,
    out: &mut [f64; 4],
) -> u32
    ensures value { result ≡ met_both (segment_circle_points_of (vec ax ay) (vec bx by) (vec cx cy) radius) }
    ensures out_after { out.new ≡ points_of (segment_circle_points_of (vec ax ay) (vec bx by) (vec cx cy) radius) }
{
    let m = geom::segment_circle_points(
        Vec2 { x: ax, y: ay },
        Vec2 { x: bx, y: by },
        Vec2 { x: cx, y: cy },
        radius,
    );
    numbers::put_points(out, m);
    numbers::met_both(m)
}

#[unsafe(no_mangle)]
pub extern "C" fn bf_point_segment_distance(
    px: f64,
    py: f64,
    ax: f64,
    ay: f64,
    bx: f64,
    by: f64,
) -> f64
    ensures { result ≡ point_segment_distance_of (vec px py) (vec ax ay) (vec bx by) }
{
    geom::point_segment_distance(
        Vec2 { x: px, y: py },
        Vec2 { x: ax, y: ay },
        Vec2 { x: bx, y: by },
    )
}

#[unsafe(no_mangle)]
pub extern "C" fn bf_point_in_polygon(px: f64, py: f64, points: &[f64]) -> u32
    ensures { result ≡ bit (point_in_polygon_of (vec px py) points.now) }
{
    numbers::bit(geom::point_in_polygon(Vec2 { x: px, y: py }, points))
}

#[unsafe(no_mangle)]
pub extern "C" fn bf_signed_area(points: &[f64]) -> f64
    ensures { result ≡ signed_area_of points.now }
{
    geom::signed_area(points)
}
