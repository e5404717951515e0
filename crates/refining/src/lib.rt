// Refining between two hits, the Rust's `Sweep::refine` (`visibility.rs`, lines 643 to 681), with `Sweep::point` and `Sweep::cast` (lines 621 to 630).
// The Rust's `Sweep` stands as plain parameters: the stated rooms, the head of the index, the work room's slices, the site's tables and the view.
// What a crossing comes to is decided by value (`turn_at`); `refine` calls itself on both halves, with 33 minus the depth falling.
// Meanings: specs/Refine.antt.
#![tactic(auto)]

ghost use Rattle.std.specs.Prelude.{◌≡◌, ◌+◌, ◌-◌, ◌^◌, ◌<◌, length};
ghost use Rattle.outline.specs.Outline.{owned, Room};
ghost use Rattle.credit.specs.Credit.{own_all, Credited};
ghost use Rattle.refining.specs.Refine.{reach_of, along_of, point_of, cast_in, credits_in, crossing_of, hides, env_in, look_of, turn_of, counted_of, run_at, refine_of, Ready, Done};

use cone::View;
use geom::Vec2;
use index::AngularIndex;
use outline::{CORNER, Trace};
use room::Rooms;
use site::{RayHit, SiteTables};

const TAU: f64 = 6.283185307179586;

// One end of a gap: its angle, and the edge hit there.
#[derive(Clone, Copy)]
pub struct End {
    pub angle: f64,
    pub edge: u32,
}

// What a crossing comes to: none lies between the ends, it is seen, or a third edge hides it. Then there is a point of that edge, at an angle.
#[derive(Clone, Copy)]
pub enum Turn {
    Stop,
    Open(Vec2),
    Hidden(Vec2, f64, u32),
}

// How far a ray goes: to its hit, or as far as the range r.
pub fn reach(r: f64, hit: Option<RayHit>) -> f64
    ensures { result ≡ reach_of r hit }
{
    match hit {
        Some(hit) => hit.t,
        None => r,
    }
}

// Where the ray in a direction ends.
pub fn point_along(view: View, dir: Vec2, hit: Option<RayHit>) -> Vec2
    ensures { result ≡ along_of view dir hit }
{
    let o = view.o;
    o.add(dir.mul(reach(view.r, hit)))
}

// The Rust's `Sweep::point`: where the ray at an angle ends.
pub fn point(view: View, angle: f64, hit: Option<RayHit>) -> Vec2
    ensures { result ≡ point_of view angle hit }
{
    point_along(view, Vec2::from_angle(view.start + angle), hit)
}

// The Rust's `Sweep::cast`.
fn cast_at(
    k: Rooms,
    x: AngularIndex,
    floats: &[f64],
    words: &[u32],
    view: View,
    angle: f64,
) -> Option<RayHit>
    ensures { result ≡ cast_in k x floats.now words.now view angle }
{
    let o = view.o;
    index::cast(
        k,
        x,
        floats,
        words,
        o,
        angle,
        Vec2::from_angle(view.start + angle),
        view.r,
    )
}

// The angle of the crossing p, seen from an end at the angle `from`: past the seam of a full circle it is a turn more.
fn crossing(view: View, from: f64, p: Vec2) -> f64
    ensures { result ≡ crossing_of view from p }
{
    let o = view.o;
    let angle = geom::normalize_angle(p.sub(o).angle() - view.start);
    if angle < from {
        return angle + TAU;
    }
    angle
}

// Does a hit at t lie in front of a crossing at the distance `dist`?
fn is_before(dist: f64, t: f64) -> bool
    ensures { result ≡ hides dist t }
{
    t < dist - 1e-9 * num::max(dist, 1.0)
}

// A crossing p at an angle between those of the ends.
fn look(
    k: Rooms,
    x: AngularIndex,
    floats: &[f64],
    words: &[u32],
    view: View,
    a: End,
    b: End,
    p: Vec2,
    angle: f64,
) -> Turn
    ensures { result ≡ look_of (cast_in k x floats.now words.now view) view a b p angle }
{
    let cast = cast_at(k, x, floats, words, view, angle);
    match cast {
        Some(hit)
            if hit.edge != a.edge && hit.edge != b.edge && is_before(p.distance(view.o), hit.t) => {
            Turn::Hidden(point(view, angle, cast), angle, hit.edge)
        }
        _ => Turn::Open(p),
    }
}

// What the crossing of the two ends' edges comes to.
fn turn_at(
    k: Rooms,
    x: AngularIndex,
    floats: &[f64],
    words: &[u32],
    tables: &SiteTables,
    view: View,
    a: End,
    b: End,
) -> Turn
    ensures { result ≡ turn_of (env_in k x floats.now words.now view tables.now.points.now tables.now.polygons.now tables.now.owners.now) a b }
{
    let ea = site::edge(tables.points, tables.polygons, tables.owners, a.edge);
    let eb = site::edge(tables.points, tables.polygons, tables.owners, b.edge);
    let Some(p) = geom::segment_intersection(ea.a, ea.b, eb.a, eb.b) else {
        return Turn::Stop;
    };
    let angle = crossing(view, a.angle, p);
    if (angle > a.angle) & (angle < b.angle) {
        return look(k, x, floats, words, view, a, b, p, angle);
    }
    Turn::Stop
}

// One cast more.
fn counted(s: Trace) -> Trace
    requires { s.refinements + 1 < 2 ^ 64 }
    ensures { result ≡ counted_of s }
{
    Trace {
        refinements: s.refinements + 1,
        ..s
    }
}

// The credits of a ray of the sweep, which hit the edge e.
fn credit_at(
    k: Rooms,
    x: AngularIndex,
    floats: &[f64],
    words: &[u32],
    owners: &[u32],
    marks: &mut [u8],
    view: View,
    angle: f64,
    e: u32,
    s: Trace,
) -> Trace
    requires { Room k.owners s }
    ensures result_after { owned marks.new result ≡ own_all k.owners owners.now (credits_in k x floats.now words.now owners.now view angle e) marks.old s }
    ensures credited { Credited k.owners s result }
{
    let o = view.o;
    credit::credit(
        k,
        x,
        floats,
        words,
        owners,
        marks,
        o,
        angle,
        Vec2::from_angle(view.start + angle),
        view.r,
        e,
        s,
    )
}

// The nearest edge switches from that of a to that of b somewhere between their angles. Puts the crossing on the outline, and any edge found in front
// of it: first what lies before that edge's point, then the point, then what lies behind it.
pub fn refine(
    k: Rooms,
    x: AngularIndex,
    floats: &[f64],
    words: &[u32],
    tables: &SiteTables,
    pts: &mut [f64],
    marks: &mut [u8],
    view: View,
    a: End,
    b: End,
    depth: u32,
    s: Trace,
) -> Trace
    requires { Ready (length pts.old) k.owners s }
    ensures result_after { run_at pts.new marks.new result ≡ refine_of (env_in k x floats.now words.now view tables.now.points.now tables.now.polygons.now tables.now.owners.now) (33 - depth) a b (run_at pts.old marks.old s) }
    ensures done { Done (length pts.old) k.owners s result }
{
    if 32 < depth {
        return s;
    }
    if s.over {
        return s;
    }
    let o = view.o;
    let t = turn_at(k, x, floats, words, tables, view, a, b);
    match t {
        Turn::Stop => s,
        Turn::Open(p) => outline::push(pts, counted(s), o, p, CORNER),
        Turn::Hidden(p, angle, edge) => {
            let m = End { angle, edge };
            let s2 = credit_at(
                k,
                x,
                floats,
                words,
                tables.owners,
                marks,
                view,
                angle,
                edge,
                counted(s),
            );
            let s3 = refine(
                k,
                x,
                floats,
                words,
                tables,
                pts,
                marks,
                view,
                a,
                m,
                depth + 1,
                s2,
            );
            let s4 = outline::push(pts, s3, o, p, edge);
            refine(
                k,
                x,
                floats,
                words,
                tables,
                pts,
                marks,
                view,
                m,
                b,
                depth + 1,
                s4,
            )
        }
    }
}
