// Small geometry in the plane: the Rust's `geom.rs`, its names and its order kept. Every public function takes whatever floats and points it is given,
// refuses nothing, and promises its one answer; `corner` alone asks something of its caller: a point that the list has. In the private `spans` a yes alone is promised.
// Meanings: specs/Vec.antt, specs/Box.antt, specs/Segment.antt, specs/Ring.antt. One rounding for each operation, in the Rust's order.
// A list of points is a slice of numbers, x and y by turns; an odd last number is not a point.
// A comparison has no effect, so where the Rust joins comparisons by `&&`, `&` stands here: no branch.
#![tactic(auto)]

ghost use Rattle.std.specs.Prelude.{◌≡◌, ◌<◌, true};
ghost use Rattle.num.specs.Ops.{zero_f, one_f};
ghost use Rattle.num.specs.Num.{min_of, max_of};
ghost use Rattle.num.specs.Root.{sqrt_of};
ghost use Rattle.geom.specs.Vec.{vec, from_angle_of, dot_of, cross_of, length_sq_of, length_of, distance_of, distance_sq_of, angle_of, lerp_of, add_of, sub_of, mul_of, neg_of};
ghost use Rattle.geom.specs.Box.{corners, corner_of, box, empty_box, from_points_of, around_of, include_of, union_of, is_empty_of, contains_of, intersects_of, distance_sq_to_of, width_of, height_of};
ghost use Rattle.geom.specs.Segment.{normal_of, is_flat, ray_segment_within, ray_segment_of, segment_intersection_of, segments_intersect_of, lower, higher, clip_segment_to_disk_of, pick_of, segment_circle_points_of, nearest_share_of, point_segment_distance_of};
ghost use Rattle.geom.specs.Ring.{crosses, point_in_polygon_of, signed_area_of};

const TAU: f64 = 6.283185307179586;

// A point or a vector in the plane.
#[derive(Clone, Copy)]
pub struct Vec2 {
    pub x: f64,
    // grows downward on screen
    pub y: f64,
}

impl Vec2 {
    // The origin.
    pub const ZERO: Vec2 = Vec2 { x: 0.0, y: 0.0 };

    pub fn new(x: f64, y: f64) -> Vec2
        ensures { result ≡ vec x y }
    {
        Vec2 { x, y }
    }

    // The unit vector at `angle` radians, x its cosine and y its sine, from one reduction.
    pub fn from_angle(angle: f64) -> Vec2
        ensures { result ≡ from_angle_of angle }
    {
        let a = angle::sin_cos(angle);
        Vec2 { x: a.cos, y: a.sin }
    }

    pub fn dot(self, o: Vec2) -> f64
        ensures { result ≡ dot_of self o }
    {
        self.x * o.x + self.y * o.y
    }

    // The third coordinate of the cross product in space: positive where `o` is counter-clockwise from `self`, y upward.
    pub fn cross(self, o: Vec2) -> f64
        ensures { result ≡ cross_of self o }
    {
        self.x * o.y - self.y * o.x
    }

    pub fn length_sq(self) -> f64
        ensures { result ≡ length_sq_of self }
    {
        self.dot(self)
    }

    pub fn length(self) -> f64
        ensures { result ≡ length_of self }
    {
        num::sqrt(self.length_sq())
    }

    pub fn distance(self, o: Vec2) -> f64
        ensures { result ≡ distance_of self o }
    {
        self.sub(o).length()
    }

    pub fn distance_sq(self, o: Vec2) -> f64
        ensures { result ≡ distance_sq_of self o }
    {
        self.sub(o).length_sq()
    }

    // The angle in radians, from -pi to pi.
    pub fn angle(self) -> f64
        ensures { result ≡ angle_of self }
    {
        angle::atan2(self.y, self.x)
    }

    // `self` at t = 0, `o` at t = 1.
    pub fn lerp(self, o: Vec2, t: f64) -> Vec2
        ensures { result ≡ lerp_of self o t }
    {
        self.add(o.sub(self).mul(t))
    }

    // The Rust's `+`, and its `+=` where the sum is stored back.
    pub fn add(self, o: Vec2) -> Vec2
        ensures { result ≡ add_of self o }
    {
        Vec2 {
            x: self.x + o.x,
            y: self.y + o.y,
        }
    }

    pub fn sub(self, o: Vec2) -> Vec2
        ensures { result ≡ sub_of self o }
    {
        Vec2 {
            x: self.x - o.x,
            y: self.y - o.y,
        }
    }

    // Scaled by s.
    pub fn mul(self, s: f64) -> Vec2
        ensures { result ≡ mul_of self s }
    {
        Vec2 {
            x: self.x * s,
            y: self.y * s,
        }
    }

    pub fn neg(self) -> Vec2
        ensures { result ≡ neg_of self }
    {
        Vec2 {
            x: -self.x,
            y: -self.y,
        }
    }
}

// Point i of a list of points.
pub fn corner(points: &[f64], i: usize) -> Vec2
    requires { i < corners points.now }
    ensures { result ≡ corner_of points.now i }
{
    Vec2 {
        x: points[2 * i],
        y: points[2 * i + 1],
    }
}

// A box along the axes.
#[derive(Clone, Copy)]
pub struct Aabb {
    pub min: Vec2,
    pub max: Vec2,
}

impl Aabb {
    // The Rust's `EMPTY`, a box that contains nothing and that `include` grows: a constant cannot hold an infinity.
    pub fn empty() -> Aabb
        ensures { result ≡ empty_box }
    {
        let above = 1.0 / 0.0;
        let below = -1.0 / 0.0;
        Aabb {
            min: Vec2 { x: above, y: above },
            max: Vec2 { x: below, y: below },
        }
    }

    pub fn new(min: Vec2, max: Vec2) -> Aabb
        ensures { result ≡ box min max }
    {
        Aabb { min, max }
    }

    // The smallest box around the points; the empty one where there are none.
    pub fn from_points(points: &[f64]) -> Aabb
        ensures { result ≡ from_points_of points.now }
    {
        let n = points.len() / 2;
        let mut b = Aabb::empty();
        for i in 0..n {
            b = b.include(corner(points, i));
        }
        b
    }

    // The square around a circle.
    pub fn around(center: Vec2, radius: f64) -> Aabb
        ensures { result ≡ around_of center radius }
    {
        Aabb {
            min: Vec2 {
                x: center.x - radius,
                y: center.y - radius,
            },
            max: Vec2 {
                x: center.x + radius,
                y: center.y + radius,
            },
        }
    }

    // Grown to contain p, and handed back.
    pub fn include(self, p: Vec2) -> Aabb
        ensures { result ≡ include_of self p }
    {
        Aabb {
            min: Vec2 {
                x: num::min(self.min.x, p.x),
                y: num::min(self.min.y, p.y),
            },
            max: Vec2 {
                x: num::max(self.max.x, p.x),
                y: num::max(self.max.y, p.y),
            },
        }
    }

    // The smallest box around both.
    pub fn union(self, o: Aabb) -> Aabb
        ensures { result ≡ union_of self o }
    {
        Aabb {
            min: Vec2 {
                x: num::min(self.min.x, o.min.x),
                y: num::min(self.min.y, o.min.y),
            },
            max: Vec2 {
                x: num::max(self.max.x, o.max.x),
                y: num::max(self.max.y, o.max.y),
            },
        }
    }

    // Does it contain no point?
    pub fn is_empty(self) -> bool
        ensures { result ≡ is_empty_of self }
    {
        !((self.min.x <= self.max.x) & (self.min.y <= self.max.y))
    }

    // Boundary included.
    pub fn contains(self, p: Vec2) -> bool
        ensures { result ≡ contains_of self p }
    {
        (p.x >= self.min.x) & (p.x <= self.max.x) & (p.y >= self.min.y) & (p.y <= self.max.y)
    }

    // Touching counts.
    pub fn intersects(self, o: Aabb) -> bool
        ensures { result ≡ intersects_of self o }
    {
        (self.min.x <= o.max.x)
            & (self.max.x >= o.min.x)
            & (self.min.y <= o.max.y)
            & (self.max.y >= o.min.y)
    }

    // The squared distance from p to the box's closest point; 0 inside.
    pub fn distance_sq_to(self, p: Vec2) -> f64
        ensures { result ≡ distance_sq_to_of self p }
    {
        let dx = num::max(num::max(self.min.x - p.x, 0.0), p.x - self.max.x);
        let dy = num::max(num::max(self.min.y - p.y, 0.0), p.y - self.max.y);
        dx * dx + dy * dy
    }

    pub fn width(self) -> f64
        ensures { result ≡ width_of self }
    {
        self.max.x - self.min.x
    }

    pub fn height(self) -> f64
        ensures { result ≡ height_of self }
    {
        self.max.y - self.min.y
    }
}

// Brings an angle to 0 up to below TAU.
pub fn normalize_angle(a: f64) -> f64
    ensures { result ≡ normal_of a }
{
    let r = num::rem_euclid(a, TAU);
    // For a tiny negative angle the remainder is TAU itself.
    if r >= TAU {
        return 0.0;
    }
    r
}

// How far beyond an edge's ends, as a share of its length, a hit counts, so that a ray through a shared corner hits both edges.
const U_EPS: f64 = 1e-9;

// Do two directions with this cross product count as parallel? |denom| < 1e-14, by a choice between two numbers and no jump:
// the sign of a cross product cannot be foretold.
fn is_flat(denom: f64) -> bool
    ensures { result ≡ is_flat denom }
{
    let size = if denom < 0.0 { -denom } else { denom };
    size < 1e-14
}

// `ray_segment` with its slack as a parameter.
pub fn ray_segment_within(slack: f64, origin: Vec2, dir: Vec2, a: Vec2, b: Vec2) -> Option<f64>
    ensures { result ≡ ray_segment_within slack origin dir a b }
{
    let e = b.sub(a);
    let denom = dir.cross(e);
    if is_flat(denom) {
        return None;
    }
    let ao = a.sub(origin);
    let t = ao.cross(e) / denom;
    let u = ao.cross(dir) / denom;
    if (t > 1e-9) & ((-slack <= u) & (u <= 1.0 + slack)) {
        return Some(t);
    }
    None
}

// The distance along the ray `origin + t * dir` to the segment a..b, where they meet with t above 0. It is in units of `dir`.
pub fn ray_segment(origin: Vec2, dir: Vec2, a: Vec2, b: Vec2) -> Option<f64>
    ensures { result ≡ ray_segment_of origin dir a b }
{
    ray_segment_within(U_EPS, origin, dir, a, b)
}

// Where the closed segments p1..p2 and p3..p4 meet; parallel ones nowhere.
pub fn segment_intersection(p1: Vec2, p2: Vec2, p3: Vec2, p4: Vec2) -> Option<Vec2>
    ensures { result ≡ segment_intersection_of p1 p2 p3 p4 }
{
    let r = p2.sub(p1);
    let s = p4.sub(p3);
    let denom = r.cross(s);
    if is_flat(denom) {
        return None;
    }
    let qp = p3.sub(p1);
    let t = qp.cross(s) / denom;
    let u = qp.cross(r) / denom;
    if ((0.0 <= t) & (t <= 1.0)) & ((0.0 <= u) & (u <= 1.0)) {
        return Some(p1.add(r.mul(t)));
    }
    None
}

// Do they meet? Parallel segments do not.
pub fn segments_intersect(p1: Vec2, p2: Vec2, p3: Vec2, p4: Vec2) -> bool
    ensures { result ≡ segments_intersect_of p1 p2 p3 p4 }
{
    segment_intersection(p1, p2, p3, p4).is_some()
}

// By how much `spans` takes a number larger than it needs, so that rounding does not bring it back under.
const MARGIN: f64 = 1.00000001;

// Does the line run through the disk from before the segment's start to beyond its end? It says yes only where the order of squares tells: then -qb is not
// above the root of `disc`, and u, which with -qb makes up 2 * qa, is not either. So most segments that lie in the disk cost no root.
fn spans(qa: f64, qb: f64, disc: f64) -> bool
    ensures { result ≡ true → (max_of zero_f (lower qa qb (sqrt_of disc)) ≡ zero_f) × (min_of (higher qa qb (sqrt_of disc)) one_f ≡ one_f) }
{
    let w = 2.0 * qa;
    let nb = -qb;
    let u = num::max(0.0, (w + qb) * MARGIN);
    ((0.0 < w) & (0.0 < disc)) & ((nb <= 0.0) | (nb * nb < disc)) & ((u * u < disc) & (w <= nb + u))
}

pub fn clip_segment_to_disk(a: Vec2, b: Vec2, center: Vec2, radius: f64) -> Option<(f64, f64)>
    ensures { result ≡ clip_segment_to_disk_of a b center radius }
{
    let d = b.sub(a);
    let f = a.sub(center);
    let qa = d.length_sq();
    if qa < 1e-24 {
        if f.length_sq() <= radius * radius {
            return Some((0.0, 1.0));
        }
        return None;
    }
    let qb = 2.0 * f.dot(d);
    let qc = f.length_sq() - radius * radius;
    let disc = qb * qb - 4.0 * qa * qc;
    if disc < 0.0 {
        return None;
    }
    if spans(qa, qb, disc) {
        return Some((0.0, 1.0));
    }
    let sq = num::sqrt(disc);
    // Of the two zeros Rust's pages let `max` give either, and the Rust's own code gives the constant: it stands first.
    let t0 = num::max(0.0, (-qb - sq) / (2.0 * qa));
    let t1 = num::min((-qb + sq) / (2.0 * qa), 1.0);
    if t0 <= t1 {
        return Some((t0, t1));
    }
    None
}

// The Rust's closure `pick`: the point a + d * t, where t lies on the segment.
fn pick(a: Vec2, d: Vec2, t: f64) -> Option<Vec2>
    ensures { result ≡ pick_of a d t }
{
    if (0.0 <= t) & (t <= 1.0) {
        return Some(a.add(d.mul(t)));
    }
    None
}

// Where the segment a..b crosses the circle, not the inside of the disk.
pub fn segment_circle_points(a: Vec2, b: Vec2, center: Vec2, radius: f64) -> [Option<Vec2>; 2]
    ensures { result ≡ segment_circle_points_of a b center radius }
{
    let d = b.sub(a);
    let f = a.sub(center);
    let qa = d.length_sq();
    if qa < 1e-24 {
        return [None, None];
    }
    let qb = 2.0 * f.dot(d);
    let qc = f.length_sq() - radius * radius;
    let disc = qb * qb - 4.0 * qa * qc;
    if disc < 0.0 {
        return [None, None];
    }
    let sq = num::sqrt(disc);
    let t0 = (-qb - sq) / (2.0 * qa);
    let t1 = (-qb + sq) / (2.0 * qa);
    [pick(a, d, t0), pick(a, d, t1)]
}

// The parameter t of `point_segment_distance`: the point a + d * t is the segment's nearest to a + w.
fn nearest_share(w: Vec2, d: Vec2) -> f64
    ensures { result ≡ nearest_share_of w d }
{
    let len_sq = d.length_sq();
    if len_sq > 0.0 {
        return num::clamp(w.dot(d) / len_sq, 0.0, 1.0);
    }
    0.0
}

// The distance from p to the closed segment a..b.
pub fn point_segment_distance(p: Vec2, a: Vec2, b: Vec2) -> f64
    ensures { result ≡ point_segment_distance_of p a b }
{
    let d = b.sub(a);
    let t = nearest_share(p.sub(a), d);
    a.add(d.mul(t)).distance(p)
}

// The test of one edge, b to a, in `point_in_polygon`. The division is made only where the edge crosses the level of p.
fn crosses(p: Vec2, a: Vec2, b: Vec2) -> bool
    ensures { result ≡ crosses p a b }
{
    if (a.y > p.y) != (b.y > p.y) {
        return p.x < (b.x - a.x) * (p.y - a.y) / (b.y - a.y) + a.x;
    }
    false
}

// Is p inside, by the even-odd rule? b is the corner before a: the last one at the start.
pub fn point_in_polygon(p: Vec2, poly: &[f64]) -> bool
    ensures { result ≡ point_in_polygon_of p poly.now }
{
    let n = poly.len() / 2;
    if n < 3 {
        return false;
    }
    let mut inside = false;
    let mut b = corner(poly, n - 1);
    for i in 0..n {
        let a = corner(poly, i);
        inside = inside != crosses(p, a, b);
        b = a;
    }
    inside
}

// The signed area: positive where the corners turn counter-clockwise, y upward.
pub fn signed_area(poly: &[f64]) -> f64
    ensures { result ≡ signed_area_of poly.now }
{
    let n = poly.len() / 2;
    let mut s = 0.0;
    for i in 0..n {
        let a = corner(poly, i);
        let b = corner(poly, (i + 1) % n);
        s = s + a.cross(b);
    }
    0.5 * s
}
