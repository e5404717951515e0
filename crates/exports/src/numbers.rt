// How structs, enums and bools go through the C interface: as the numbers that specs/Numbers.antt gives them.
ghost use Rattle.std.specs.Prelude.{◌≡◌};
ghost use Rattle.exports.specs.Numbers.{bit, pair, box_four, box_of, hit, reach_of, met, point_of, met_both, points_of, part, part_of};

use geom::{Aabb, Vec2};

// A bool as a number.
pub fn bit(b: bool) -> u32
    ensures { result ≡ bit b }
{
    b as u32
}

// Two numbers out, a point.
pub fn put2(out: &mut [f64; 2], v: Vec2)
    ensures { out.new ≡ pair v }
{
    *out = [v.x, v.y];
}

// Four numbers out, a box.
pub fn put_box(out: &mut [f64; 4], b: Aabb)
    ensures { out.new ≡ box_four b }
{
    *out = [b.min.x, b.min.y, b.max.x, b.max.y];
}

// Four numbers in, a box.
pub fn box_of(b: &[f64; 4]) -> Aabb
    ensures { result ≡ box_of b.now }
{
    Aabb {
        min: Vec2 { x: b[0], y: b[1] },
        max: Vec2 { x: b[2], y: b[3] },
    }
}

pub fn hit(r: Option<f64>) -> u32
    ensures { result ≡ hit r }
{
    r.is_some() as u32
}

pub fn reach_of(r: Option<f64>) -> f64
    ensures { result ≡ reach_of r }
{
    match r {
        Some(t) => t,
        None => 0.0,
    }
}

pub fn met(m: Option<Vec2>) -> u32
    ensures { result ≡ met m }
{
    m.is_some() as u32
}

pub fn point_of(m: Option<Vec2>) -> Vec2
    ensures { result ≡ point_of m }
{
    match m {
        Some(p) => p,
        None => Vec2::ZERO,
    }
}

pub fn met_both(m: [Option<Vec2>; 2]) -> u32
    ensures { result ≡ met_both m }
{
    met(m[0]) + 2 * met(m[1])
}

// Four numbers out, two points that may be missing.
pub fn put_points(out: &mut [f64; 4], m: [Option<Vec2>; 2])
    ensures { out.new ≡ points_of m }
{
    let v = point_of(m[0]);
    let w = point_of(m[1]);
    *out = [v.x, v.y, w.x, w.y];
}

pub fn part(c: Option<(f64, f64)>) -> u32
    ensures { result ≡ part c }
{
    c.is_some() as u32
}

pub fn part_of(c: Option<(f64, f64)>) -> Vec2
    ensures { result ≡ part_of c }
{
    match c {
        Some((from, to)) => Vec2 { x: from, y: to },
        None => Vec2::ZERO,
    }
}
