// What a viewer can see at most: a circle, or a sector of it. `ViewCone` of `visibility.rs` (lines 41 to 137) and its `arc_step` (lines 724 to 732),
// their names and order kept, and the numbers that an outline goes by (`compute_visibility`, lines 248 to 251 and 265).
// One rounding for each operation, in the Rust's order. `outline` is an entry point: it requires nothing, tests that the cone is in the domain (1) and that its
// list is long enough (8), and loads what it is given, as document 01's rules for questions have it. All else refuses nothing.
// Meanings: specs/Cone.antt (the cone, its box and its points), specs/Domain.antt (the domain and loading), specs/Outline.antt (the outcome of `outline`).
#![tactic(auto)]

ghost use Rattle.std.specs.Prelude.{◌≡◌, [], ◌∷◌, ◌+◌, ◌*◌, ◌<◌};
ghost use Rattle.std.proofs.lemmas.List.Edits.{sets};
ghost use Rattle.cone.specs.Cone.{cone_of, full_of, is_full_of, fov_clamped_of, start_angle_of, fov_of, view_of, reach_of, rim_of, with_axis, sector_box_of, aabb_of, arc_step_of, steps_of, arc_point_of, arc_of, numbers_of, Drawn};
ghost use Rattle.cone.specs.Domain.{cone_in_domain, load_cone_of};
ghost use Rattle.cone.specs.Outline.{outcome, Promise};

use geom::{Aabb, Vec2};
use refusal::Refusal;

const TAU: f64 = 6.283185307179586;

const PI: f64 = 3.141592653589793;

const FRAC_PI_2: f64 = 1.5707963267948966;

// A circle of radius `range` around `origin`, or a sector of it.
#[derive(Clone, Copy)]
pub struct ViewCone {
    pub origin: Vec2,
    pub range: f64,
    // the middle of the sector, in radians
    pub direction: f64,
    // the opening angle, in radians: from TAU on, or just below it, the cone is a full circle
    pub fov: f64,
}

// The numbers that an outline goes by: the origin, the range, whether the cone is full, the opening angle, and the angle at which it starts.
#[derive(Clone, Copy)]
pub struct View {
    pub o: Vec2,
    pub r: f64,
    pub full: bool,
    pub fov: f64,
    pub start: f64,
}

impl ViewCone {
    // A full circle around `origin`.
    pub fn full(origin: Vec2, range: f64) -> ViewCone
        ensures { result ≡ full_of origin range }
    {
        ViewCone {
            origin,
            range,
            direction: 0.0,
            fov: TAU,
        }
    }

    // A sector around `direction`, `fov` wide.
    pub fn sector(origin: Vec2, range: f64, direction: f64, fov: f64) -> ViewCone
        ensures { result ≡ cone_of origin range direction fov }
    {
        ViewCone {
            origin,
            range,
            direction,
            fov,
        }
    }

    // Is it a full circle?
    pub fn is_full(self) -> bool
        ensures { result ≡ is_full_of self }
    {
        self.fov >= TAU - 1e-9
    }

    // The opening angle, held to 0 up to TAU.
    pub fn fov_clamped(self) -> f64
        ensures { result ≡ fov_clamped_of self }
    {
        num::clamp(self.fov, 0.0, TAU)
    }

    // The angle of the cone's first side: angles inside are from 0 up to the opening angle past it.
    pub fn start_angle(self) -> f64
        ensures { result ≡ start_angle_of self }
    {
        if self.is_full() {
            return self.direction - PI;
        }
        self.direction - self.fov_clamped() / 2.0
    }

    // The box around the cone.
    pub fn aabb(self) -> Aabb
        ensures { result ≡ aabb_of self }
    {
        let r = reach(self);
        if self.is_full() {
            return Aabb::around(self.origin, r);
        }
        sector_box(view_of(self), r)
    }

    // Is the cone in the domain? A range may be NaN, a direction may not.
    pub fn in_domain(self) -> bool
        ensures { result ≡ cone_in_domain self }
    {
        let o = self.origin;
        site::point_in_domain(o)
            & !(self.range > 1000000.0)
            & (self.direction >= -100.0)
            & (self.direction <= 100.0)
            & !num::is_nan(self.fov)
    }

    // The cone with plus zero for minus zero.
    pub fn loaded(self) -> ViewCone
        ensures { result ≡ load_cone_of self }
    {
        let o = self.origin;
        ViewCone {
            origin: site::load_point(o),
            range: site::load(self.range),
            direction: site::load(self.direction),
            fov: site::load(self.fov),
        }
    }

    // The outline of the cone itself, as if nothing stood in it: a circle, or the origin and an arc, as x and y by turns in front of a lent list, zeros behind it.
    // 1: the cone is outside the domain, and nothing is written. 8: the list is too short, and it is all zero.
    pub fn outline(self, tolerance: f64, out: &mut [f64]) -> Result<usize, Refusal>
        ensures { Promise self tolerance out.old (outcome result out.new) }
    {
        if !self.in_domain() {
            return Err(Refusal::OutsideDomain);
        }
        let n = self.loaded().draw(site::load(tolerance), &mut *out);
        let room = out.len();
        let end = 2 * n;
        if room < end {
            lists::clear(out);
            return Err(Refusal::NoListRoom);
        }
        lists::clear_from(out, end);
        Ok(n)
    }

    // The same without the tests, of a cone and a tolerance as they are: answers how many points there are, and writes those that there is room for.
    pub fn draw(self, tolerance: f64, out: &mut [f64]) -> usize
        ensures { Drawn self tolerance out.old out.new result }
    {
        let r = reach(self);
        let v = view_of(self);
        let n = steps(self, tolerance);
        if v.full {
            put_arc(v, r, n, n, 0, out);
            return n as usize;
        }
        put_point(out, 0, v.o);
        put_arc(v, r, n, n + 1, 1, out);
        n as usize + 2
    }
}

// The opening angle that is used: TAU of a full circle.
fn fov_of(cone: ViewCone) -> f64
    ensures { result ≡ fov_of cone }
{
    if cone.is_full() {
        return TAU;
    }
    cone.fov_clamped()
}

// The range, or 0 where it is negative or NaN.
fn reach(cone: ViewCone) -> f64
    ensures { result ≡ reach_of cone }
{
    num::max(cone.range, 0.0)
}

// The numbers that an outline from this cone goes by.
pub fn view_of(cone: ViewCone) -> View
    ensures { result ≡ view_of cone }
{
    let o = cone.origin;
    View {
        o,
        r: cone.range,
        full: cone.is_full(),
        fov: fov_of(cone),
        start: cone.start_angle(),
    }
}

// The point of a circle at an angle.
pub fn rim(o: Vec2, r: f64, angle: f64) -> Vec2
    ensures { result ≡ rim_of o r angle }
{
    o.add(Vec2::from_angle(angle).mul(r))
}

// A box, grown by the circle's point on an axis where the sector reaches that axis.
fn with_axis(b: Aabb, v: View, r: f64, axis: f64) -> Aabb
    ensures { result ≡ with_axis b v r axis }
{
    if geom::normalize_angle(axis - v.start) <= v.fov {
        return b.include(rim(v.o, r, axis));
    }
    b
}

// The box around a sector: its corner, the ends of its arc, and the axes that the arc crosses.
fn sector_box(v: View, r: f64) -> Aabb
    ensures { result ≡ sector_box_of v r }
{
    let corner = Aabb::new(v.o, v.o);
    let ends = corner
        .include(rim(v.o, r, v.start))
        .include(rim(v.o, r, v.start + v.fov));
    let first = with_axis(ends, v, r, 0.0 * FRAC_PI_2);
    let second = with_axis(first, v, r, 1.0 * FRAC_PI_2);
    let third = with_axis(second, v, r, 2.0 * FRAC_PI_2);
    with_axis(third, v, r, 3.0 * FRAC_PI_2)
}

// The largest angle step whose chord stays within `tolerance` of a circle of radius r. A tolerance that is zero, negative or NaN is a tiny one.
pub fn arc_step(r: f64, tolerance: f64) -> f64
    ensures { result ≡ arc_step_of r tolerance }
{
    let held = num::max(tolerance, 1e-9);
    if held >= r {
        return FRAC_PI_2;
    }
    num::clamp(2.0 * angle::acos(1.0 - held / r), 1e-3, FRAC_PI_2)
}

// How many steps the cone's arc takes: 7,168 at most (proofs/FewSteps.antt).
fn steps(cone: ViewCone, tolerance: f64) -> u32
    ensures { result ≡ steps_of cone tolerance }
{
    let n = num::to_u64(num::ceil(fov_of(cone) / arc_step(reach(cone), tolerance)));
    n.max(1) as u32
}

// The point k of an arc of so many steps.
fn arc_point(v: View, r: f64, steps: u32, k: u32) -> Vec2
    ensures { result ≡ arc_point_of v r steps k }
{
    rim(v.o, r, v.start + v.fov * (k as f64) / (steps as f64))
}

// Makes p the point i of a list of numbers, as far as there is room.
fn put_point(out: &mut [f64], i: u32, p: Vec2)
    ensures { out.new ≡ sets out.old (2 * i) (p.x ∷ p.y ∷ []) }
{
    let at = 2 * i as usize;
    lists::put(out, at, p.x);
    lists::put(out, at + 1, p.y);
}

// Makes the first n points of an arc the points from `at` on, as far as there is room.
fn put_arc(v: View, r: f64, steps: u32, n: u32, at: u32, out: &mut [f64])
    requires { at + n < 4294967296 }
    ensures { out.new ≡ sets out.old (2 * at) (numbers_of (arc_of v r steps n)) }
{
    for k in 0..n {
        put_point(out, at + k, arc_point(v, r, steps, k));
    }
}
