// The outline builder, the Rust's `Outline` (`visibility.rs`, lines 684 to 722), over a lent list of numbers, x and y by turns, and the marks of the
// polygons that own the edges seen: the Rust's `owners`. The Rust's tags are looked at two back at most, so the last two stand in the state by value.
// Where a list would pass its entries the flag `over` is set, and from then on nothing is written or counted.
// Meanings: specs/Outline.antt.
#![tactic(auto)]

ghost use Rattle.std.specs.Prelude.{◌≡◌, ◌*◌, ◌≤◌, length};
ghost use Rattle.outline.specs.Outline.{none, close_of, Chosen, room_of, tail_of, place_of, out, push_of, Pushed, Room, owned, own_of, Grown};

use geom::Vec2;

// The tag of a point that stays: a corner, or a point of the arc. A number and no `Option`, as tags are words of the lent room.
pub const CORNER: u32 = 4294967295;

// How far a run has come: its points, the entries of the Rust's `owners`, the casts made by refining, and the tags of the last two points. The flag
// stands between the tags: at the end it would leave seven bytes free, which are slow to copy from turn to turn. No `Option` holds the numbers: they are
// promised where the room is passed too.
#[derive(Clone, Copy)]
pub struct Trace {
    pub points: usize,
    pub owners: usize,
    pub refinements: usize,
    pub last: u32,
    pub over: bool,
    pub prev: u32,
}

// Where a point goes: nowhere, over the last one as a corner, over the last one of its edge, behind the last one, or past the room.
#[derive(Clone, Copy)]
pub enum Place {
    Skip,
    Corner,
    Same,
    Add,
    Full,
}

// A run with nothing in it.
pub fn empty() -> Trace
    ensures { result ≡ none }
{
    Trace {
        points: 0,
        last: 0,
        prev: 0,
        owners: 0,
        refinements: 0,
        over: false,
    }
}

// Is p right next to the last point? Side rays land about 1e-8 times the distance away from their corner.
fn is_close(o: Vec2, p: Vec2, last: Vec2) -> bool
    ensures { result ≡ close_of o p last }
{
    let tol_sq = 1e-14 * num::max(o.distance_sq(p), 1.0);
    last.distance_sq(p) <= tol_sq
}

// One point more.
fn add_place(pts: &[f64], n: usize) -> Place
    requires { 2 * n ≤ length pts.now }
    ensures { Chosen (room_of (length pts.now) n) n (length pts.now) result }
{
    if 2 * n + 2 <= pts.len() {
        Place::Add
    } else {
        Place::Full
    }
}

// A point that is not next to the last one: it takes the place of the last one where the two before it lie on its edge.
fn tail_place(pts: &[f64], s: Trace, tag: u32) -> Place
    requires { 2 * s.points ≤ length pts.now }
    ensures { Chosen (tail_of (length pts.now) s tag) s.points (length pts.now) result }
{
    if tag != CORNER && s.points >= 2 && s.last == tag && s.prev == tag {
        return Place::Same;
    }
    add_place(pts, s.points)
}

fn place_of(pts: &[f64], s: Trace, o: Vec2, p: Vec2, tag: u32) -> Place
    requires { 2 * s.points ≤ length pts.now }
    ensures { Chosen (place_of pts.now s o p tag) s.points (length pts.now) result }
{
    let n = s.points;
    if s.over {
        return Place::Skip;
    }
    if n == 0 {
        return tail_place(pts, s, tag);
    }
    let last = Vec2 {
        x: pts[2 * n - 2],
        y: pts[2 * n - 1],
    };
    if is_close(o, p, last) {
        if tag == CORNER {
            return Place::Corner;
        }
        return Place::Skip;
    }
    tail_place(pts, s, tag)
}

// The Rust's `Outline::push`.
pub fn push(pts: &mut [f64], s: Trace, o: Vec2, p: Vec2, tag: u32) -> Trace
    requires { 2 * s.points ≤ length pts.old }
    ensures result_after { out pts.new result ≡ push_of o p tag pts.old s }
    ensures pushed { Pushed (length pts.old) s result }
{
    let n = s.points;
    match place_of(pts, s, o, p, tag) {
        Place::Skip => s,
        Place::Corner => {
            pts[2 * n - 2] = p.x;
            pts[2 * n - 1] = p.y;
            Trace { last: CORNER, ..s }
        }
        Place::Same => {
            pts[2 * n - 2] = p.x;
            pts[2 * n - 1] = p.y;
            s
        }
        Place::Add => {
            pts[2 * n] = p.x;
            pts[2 * n + 1] = p.y;
            Trace {
                points: n + 1,
                last: tag,
                prev: s.last,
                ..s
            }
        }
        Place::Full => Trace { over: true, ..s },
    }
}

// One entry more of the Rust's `owners`, of which `room` are allowed: the polygon that owns the edge is marked.
pub fn own(room: u32, owners: &[u32], marks: &mut [u8], s: Trace, edge: u32) -> Trace
    requires { Room room s }
    ensures result_after { owned marks.new result ≡ own_of room owners.now edge marks.old s }
    ensures grown { Grown room s result }
{
    let m = s.owners;
    if s.over {
        return s;
    }
    if m < room as usize {
        lists::put(marks, site::owner_at(owners, edge as usize) as usize, 1);
        return Trace { owners: m + 1, ..s };
    }
    Trace {
        owners: m + 1,
        over: true,
        ..s
    }
}
