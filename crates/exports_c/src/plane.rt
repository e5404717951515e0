// The part of the archive for `geom`: the functions of crates/exports/src/plane.rt, which says what their numbers are.
ghost use Rattle.std.specs.Prelude.{◌≡◌};
ghost use Rattle.geom.specs.Vec.{vec, from_angle_of, dot_of, cross_of, length_sq_of, length_of, distance_of, distance_sq_of, angle_of, lerp_of, add_of, sub_of, mul_of, neg_of};
ghost use Rattle.geom.specs.Box.{from_points_of, around_of, include_of, union_of, is_empty_of, contains_of, intersects_of, distance_sq_to_of, width_of, height_of};
ghost use Rattle.geom.specs.Segment.{normal_of, ray_segment_of, segment_intersection_of, segments_intersect_of, clip_segment_to_disk_of, segment_circle_points_of, point_segment_distance_of};
ghost use Rattle.geom.specs.Ring.{point_in_polygon_of, signed_area_of};
ghost use Rattle.exports.specs.Numbers.{bit, pair, box_four, box_of, hit, reach_of, met, point_of, met_both, points_of, part, part_of};

// ---- Vec2

#[unsafe(no_mangle)]
pub extern "C" fn bf_vec2_from_angle(angle: f64, out: &mut [f64; 2])
    ensures { out.new ≡ pair (from_angle_of angle) }
{
    exports::plane::bf_vec2_from_angle(angle, out);
}

#[unsafe(no_mangle)]
pub extern "C" fn bf_vec2_dot(ax: f64, ay: f64, bx: f64, by: f64) -> f64
    ensures { result ≡ dot_of (vec ax ay) (vec bx by) }
{
    exports::plane::bf_vec2_dot(ax, ay, bx, by)
}

#[unsafe(no_mangle)]
pub extern "C" fn bf_vec2_cross(ax: f64, ay: f64, bx: f64, by: f64) -> f64
    ensures { result ≡ cross_of (vec ax ay) (vec bx by) }
{
    exports::plane::bf_vec2_cross(ax, ay, bx, by)
}

#[unsafe(no_mangle)]
pub extern "C" fn bf_vec2_length_sq(x: f64, y: f64) -> f64
    ensures { result ≡ length_sq_of (vec x y) }
{
    exports::plane::bf_vec2_length_sq(x, y)
}

#[unsafe(no_mangle)]
pub extern "C" fn bf_vec2_length(x: f64, y: f64) -> f64
    ensures { result ≡ length_of (vec x y) }
{
    exports::plane::bf_vec2_length(x, y)
}

#[unsafe(no_mangle)]
pub extern "C" fn bf_vec2_distance(ax: f64, ay: f64, bx: f64, by: f64) -> f64
    ensures { result ≡ distance_of (vec ax ay) (vec bx by) }
{
    exports::plane::bf_vec2_distance(ax, ay, bx, by)
}

#[unsafe(no_mangle)]
pub extern "C" fn bf_vec2_distance_sq(ax: f64, ay: f64, bx: f64, by: f64) -> f64
    ensures { result ≡ distance_sq_of (vec ax ay) (vec bx by) }
{
    exports::plane::bf_vec2_distance_sq(ax, ay, bx, by)
}

#[unsafe(no_mangle)]
pub extern "C" fn bf_vec2_angle(x: f64, y: f64) -> f64
    ensures { result ≡ angle_of (vec x y) }
{
    exports::plane::bf_vec2_angle(x, y)
}

#[unsafe(no_mangle)]
pub extern "C" fn bf_vec2_lerp(ax: f64, ay: f64, bx: f64, by: f64, t: f64, out: &mut [f64; 2])
    ensures { out.new ≡ pair (lerp_of (vec ax ay) (vec bx by) t) }
{
    exports::plane::bf_vec2_lerp(ax, ay, bx, by, t, out);
}

#[unsafe(no_mangle)]
pub extern "C" fn bf_vec2_add(ax: f64, ay: f64, bx: f64, by: f64, out: &mut [f64; 2])
    ensures { out.new ≡ pair (add_of (vec ax ay) (vec bx by)) }
{
    exports::plane::bf_vec2_add(ax, ay, bx, by, out);
}

#[unsafe(no_mangle)]
pub extern "C" fn bf_vec2_sub(ax: f64, ay: f64, bx: f64, by: f64, out: &mut [f64; 2])
    ensures { out.new ≡ pair (sub_of (vec ax ay) (vec bx by)) }
{
    exports::plane::bf_vec2_sub(ax, ay, bx, by, out);
}

#[unsafe(no_mangle)]
pub extern "C" fn bf_vec2_mul(x: f64, y: f64, s: f64, out: &mut [f64; 2])
    ensures { out.new ≡ pair (mul_of (vec x y) s) }
{
    exports::plane::bf_vec2_mul(x, y, s, out);
}

#[unsafe(no_mangle)]
pub extern "C" fn bf_vec2_neg(x: f64, y: f64, out: &mut [f64; 2])
    ensures { out.new ≡ pair (neg_of (vec x y)) }
{
    exports::plane::bf_vec2_neg(x, y, out);
}

// ---- Aabb

#[unsafe(no_mangle)]
pub extern "C" fn bf_aabb_from_points(points: &[f64], out: &mut [f64; 4])
    ensures { out.new ≡ box_four (from_points_of points.now) }
{
    exports::plane::bf_aabb_from_points(points, out);
}

#[unsafe(no_mangle)]
pub extern "C" fn bf_aabb_around(cx: f64, cy: f64, radius: f64, out: &mut [f64; 4])
    ensures { out.new ≡ box_four (around_of (vec cx cy) radius) }
{
    exports::plane::bf_aabb_around(cx, cy, radius, out);
}

#[unsafe(no_mangle)]
pub extern "C" fn bf_aabb_include(b: &[f64; 4], x: f64, y: f64, out: &mut [f64; 4])
    ensures { out.new ≡ box_four (include_of (box_of b.now) (vec x y)) }
{
    exports::plane::bf_aabb_include(b, x, y, out);
}

#[unsafe(no_mangle)]
pub extern "C" fn bf_aabb_union(a: &[f64; 4], b: &[f64; 4], out: &mut [f64; 4])
    ensures { out.new ≡ box_four (union_of (box_of a.now) (box_of b.now)) }
{
    exports::plane::bf_aabb_union(a, b, out);
}

#[unsafe(no_mangle)]
pub extern "C" fn bf_aabb_is_empty(b: &[f64; 4]) -> u32
    ensures { result ≡ bit (is_empty_of (box_of b.now)) }
{
    exports::plane::bf_aabb_is_empty(b)
}

#[unsafe(no_mangle)]
pub extern "C" fn bf_aabb_contains(b: &[f64; 4], x: f64, y: f64) -> u32
    ensures { result ≡ bit (contains_of (box_of b.now) (vec x y)) }
{
    exports::plane::bf_aabb_contains(b, x, y)
}

#[unsafe(no_mangle)]
pub extern "C" fn bf_aabb_intersects(a: &[f64; 4], b: &[f64; 4]) -> u32
    ensures { result ≡ bit (intersects_of (box_of a.now) (box_of b.now)) }
{
    exports::plane::bf_aabb_intersects(a, b)
}

#[unsafe(no_mangle)]
pub extern "C" fn bf_aabb_distance_sq_to(b: &[f64; 4], x: f64, y: f64) -> f64
    ensures { result ≡ distance_sq_to_of (box_of b.now) (vec x y) }
{
    exports::plane::bf_aabb_distance_sq_to(b, x, y)
}

#[unsafe(no_mangle)]
pub extern "C" fn bf_aabb_width(b: &[f64; 4]) -> f64
    ensures { result ≡ width_of (box_of b.now) }
{
    exports::plane::bf_aabb_width(b)
}

#[unsafe(no_mangle)]
pub extern "C" fn bf_aabb_height(b: &[f64; 4]) -> f64
    ensures { result ≡ height_of (box_of b.now) }
{
    exports::plane::bf_aabb_height(b)
}

// ---- angles, rays, segments, circles, polygons

#[unsafe(no_mangle)]
pub extern "C" fn bf_normalize_angle(a: f64) -> f64
    ensures { result ≡ normal_of a }
{
    exports::plane::bf_normalize_angle(a)
}

#[unsafe(no_mangle)]
pub extern "C" fn bf_ray_segment(
    ox: f64,
    oy: f64,
    dx: f64,
    dy: f64,
    ax: f64,
    ay: f64,
    bx: f64,
    by: f64,
    t: &mut f64,
) -> u32
    ensures value { result ≡ hit (ray_segment_of (vec ox oy) (vec dx dy) (vec ax ay) (vec bx by)) }
    ensures t_after { t.new ≡ reach_of (ray_segment_of (vec ox oy) (vec dx dy) (vec ax ay) (vec bx by)) }
{
    exports::plane::bf_ray_segment(ox, oy, dx, dy, ax, ay, bx, by, t)
}

#[unsafe(no_mangle)]
pub extern "C" fn bf_segment_intersection(
    p1x: f64,
    p1y: f64,
    p2x: f64,
    p2y: f64,
    p3x: f64,
    p3y: f64,
    p4x: f64,
    p4y: f64,
    out: &mut [f64; 2],
) -> u32
    ensures value { result ≡ met (segment_intersection_of (vec p1x p1y) (vec p2x p2y) (vec p3x p3y) (vec p4x p4y)) }
    ensures out_after { out.new ≡ pair (point_of (segment_intersection_of (vec p1x p1y) (vec p2x p2y) (vec p3x p3y) (vec p4x p4y))) }
{
    exports::plane::bf_segment_intersection(p1x, p1y, p2x, p2y, p3x, p3y, p4x, p4y, out)
}

#[unsafe(no_mangle)]
pub extern "C" fn bf_segments_intersect(
    p1x: f64,
    p1y: f64,
    p2x: f64,
    p2y: f64,
    p3x: f64,
    p3y: f64,
    p4x: f64,
    p4y: f64,
) -> u32
    ensures { result ≡ bit (segments_intersect_of (vec p1x p1y) (vec p2x p2y) (vec p3x p3y) (vec p4x p4y)) }
{
    exports::plane::bf_segments_intersect(p1x, p1y, p2x, p2y, p3x, p3y, p4x, p4y)
}

#[unsafe(no_mangle)]
pub extern "C" fn bf_clip_segment_to_disk(
    ax: f64,
    ay: f64,
    bx: f64,
    by: f64,
    cx: f64,
    cy: f64,
    radius: f64,
    out: &mut [f64; 2],
) -> u32
    ensures value { result ≡ part (clip_segment_to_disk_of (vec ax ay) (vec bx by) (vec cx cy) radius) }
    ensures out_after { out.new ≡ pair (part_of (clip_segment_to_disk_of (vec ax ay) (vec bx by) (vec cx cy) radius)) }
{
    exports::plane::bf_clip_segment_to_disk(ax, ay, bx, by, cx, cy, radius, out)
}

#[unsafe(no_mangle)]
pub extern "C" fn bf_segment_circle_points(
    ax: f64,
    ay: f64,
    bx: f64,
    by: f64,
    cx: f64,
    cy: f64,
    radius: f64,
    out: &mut [f64; 4],
) -> u32
    ensures value { result ≡ met_both (segment_circle_points_of (vec ax ay) (vec bx by) (vec cx cy) radius) }
    ensures out_after { out.new ≡ points_of (segment_circle_points_of (vec ax ay) (vec bx by) (vec cx cy) radius) }
{
    exports::plane::bf_segment_circle_points(ax, ay, bx, by, cx, cy, radius, out)
}

#[unsafe(no_mangle)]
pub extern "C" fn bf_point_segment_distance(
    px: f64,
    py: f64,
    ax: f64,
    ay: f64,
    bx: f64,
    by: f64,
) -> f64
    ensures { result ≡ point_segment_distance_of (vec px py) (vec ax ay) (vec bx by) }
{
    exports::plane::bf_point_segment_distance(px, py, ax, ay, bx, by)
}

#[unsafe(no_mangle)]
pub extern "C" fn bf_point_in_polygon(px: f64, py: f64, points: &[f64]) -> u32
    ensures { result ≡ bit (point_in_polygon_of (vec px py) points.now) }
{
    exports::plane::bf_point_in_polygon(px, py, points)
}

#[unsafe(no_mangle)]
pub extern "C" fn bf_signed_area(points: &[f64]) -> f64
    ensures { result ≡ signed_area_of points.now }
{
    exports::plane::bf_signed_area(points)
}
