// Front edges and their ends: the first stage of the Rust's `compute_visibility` (`visibility.rs`, lines 265 to 327). Every edge of every
// candidate polygon is looked at; one that faces the post is cut to the range and kept, and its ends become events.
// Each edge is decided by value first; what is found is then written into the lent room, each list in its own stretch of it.
// Meanings: specs/Sides.antt (one edge), specs/Fan.antt (all of them). What is known of the lists: proofs/Bounds.antt, proofs/Fronts.antt.
#![tactic(auto)]

ghost use Rattle.std.specs.Prelude.{◌≡◌, ◌^◌, ◌<◌, length, take};
ghost use Rattle.site.specs.Tables.{first_of, len_of};
ghost use Rattle.room.specs.Layout.{Fit};
ghost use Rattle.fan.specs.Sides.{facing, touches_of, rel_of, start_of, stop_of, end_of, part_of, clipped_of, front_of, found_of};
ghost use Rattle.fan.specs.Fan.{edge_fan, event_fan, end_fan, both, side_fan, side_at, sides_fan, is_far, polygon_fan, fan_of, Added, Below, Inside, Ready, Scanned, zero_tally};

use cone::View;
use geom::Vec2;
use room::{Event, LocalEdge, NO_VERTEX, Rooms};
use site::SiteTables;

// A post this close to an edge stands on it.
const BOUNDARY_EPS: f64 = 1e-9;

// A front edge, and the events of its two ends: an end is an event where the view holds its angle.
#[derive(Clone, Copy)]
struct FrontEdge {
    edge: LocalEdge,
    start: Option<Event>,
    stop: Option<Event>,
}

// What one polygon edge gives: whether the post stands on it, and the front edge, where the view has one of it.
#[derive(Clone, Copy)]
struct Found {
    touch: bool,
    seen: Option<FrontEdge>,
}

// The cross product that is negative where the edge a..b faces o.
fn facing(o: Vec2, a: Vec2, b: Vec2) -> f64
    ensures { result ≡ facing o a b }
{
    b.sub(a).cross(o.sub(a))
}

// Standing on an obstacle's edge counts as inside it. The distance to the edge's line is |cross| / |b - a|; squares are compared first, so
// that few edges need the root.
fn touches(o: Vec2, a: Vec2, b: Vec2) -> bool
    ensures { result ≡ touches_of o a b }
{
    let cross = facing(o, a, b);
    cross * cross <= BOUNDARY_EPS * BOUNDARY_EPS * b.sub(a).length_sq()
        && geom::point_segment_distance(o, a, b) <= BOUNDARY_EPS
}

// The Rust's closure `rel`: the angle of p seen from the post, relative to the view's start.
fn rel(view: View, p: Vec2) -> f64
    ensures { result ≡ rel_of view p }
{
    geom::normalize_angle(p.sub(view.o).angle() - view.start)
}

// The start of the part in range.
fn start_of(a: Vec2, b: Vec2, t0: f64) -> Vec2
    ensures { result ≡ start_of a b t0 }
{
    if t0 <= 0.0 {
        return a;
    }
    a.lerp(b, t0)
}

// And its end.
fn stop_of(a: Vec2, b: Vec2, t1: f64) -> Vec2
    ensures { result ≡ stop_of a b t1 }
{
    if t1 >= 1.0 {
        return b;
    }
    a.lerp(b, t1)
}

// The event of the end at an angle. Where it is a corner its place is the point of the number i, so the event keeps the number alone.
fn end_of(view: View, angle: f64, corner: bool, i: u32) -> Option<Event>
    ensures { result ≡ end_of view angle corner i }
{
    let held = view.full | (angle <= view.fov);
    if !held {
        return None;
    }
    Some(Event {
        angle,
        vertex: if corner { i } else { NO_VERTEX },
        side: false,
    })
}

// The part of an edge from p to q, seen at the angles rp and rq. q is clockwise of p, so it covers rq to rp.
fn part_of(o: Vec2, p: Vec2, q: Vec2, rp: f64, rq: f64, i: u32) -> LocalEdge
    ensures { result ≡ part_of o p q rp rq i }
{
    LocalEdge {
        a: p,
        b: q,
        near: geom::point_segment_distance(o, p, q),
        edge: i,
        span_start: rq,
        span_len: geom::normalize_angle(rp - rq),
    }
}

// A front edge of which the range holds the share from t0 to t1.
fn clipped(view: View, a: Vec2, b: Vec2, i: u32, j: u32, t0: f64, t1: f64) -> FrontEdge
    ensures { result ≡ clipped_of view a b i j t0 t1 }
{
    let p = start_of(a, b, t0);
    let q = stop_of(a, b, t1);
    let rp = rel(view, p);
    let rq = rel(view, q);
    FrontEdge {
        edge: part_of(view.o, p, q, rp, rq, i),
        start: end_of(view, rp, t0 <= 0.0, i),
        stop: end_of(view, rq, t1 >= 1.0, j),
    }
}

// An edge that faces away, or lies edge-on, is never hit first; one out of range is not hit at all.
fn front(view: View, a: Vec2, b: Vec2, i: u32, j: u32) -> Option<FrontEdge>
    ensures { result ≡ front_of view a b i j }
{
    if facing(view.o, a, b) >= 0.0 {
        return None;
    }
    match geom::clip_segment_to_disk(a, b, view.o, view.r) {
        Some((t0, t1)) => Some(clipped(view, a, b, i, j, t0, t1)),
        None => None,
    }
}

// The edge from the corner i at a to the corner j at b. The post may stand on one that faces away too.
fn side(view: View, a: Vec2, b: Vec2, i: u32, j: u32) -> Found
    ensures { result ≡ found_of view a b i j }
{
    let touch = touches(view.o, a, b);
    Found {
        touch,
        seen: front(view, a, b, i, j),
    }
}

// What was found so far.
#[derive(Clone, Copy)]
struct Tally {
    candidates: usize,
    edges: usize,
    events: usize,
    touch: bool,
}

// What the scan answers: how many candidates, front edges and events there are, whether the post stands on an edge, and whether a list
// passes its stated entries. A flag beside them and no `Option` around them: the numbers are promised where a list is over too (`Scanned`).
#[derive(Clone, Copy)]
pub struct Fan {
    pub candidates: usize,
    pub edges: usize,
    pub events: usize,
    pub touch: bool,
    pub over: bool,
}

// Counts a front edge, and writes it where there is room.
fn add_edge(k: Rooms, e: LocalEdge, t: Tally, floats: &mut [f64], words: &mut [u32]) -> Tally
    requires fit { Fit k (length floats.old) (length words.old) }
    requires below { Below (2 ^ 63) t }
    ensures { Added k (edge_fan e) t floats.old words.old result floats.new words.new }
{
    let n = t.edges;
    if n < k.edges as usize {
        room::put_edge(k, floats, words, n as u32, e);
    }
    Tally { edges: n + 1, ..t }
}

// Counts an event, and writes it where there is room.
fn add_event(k: Rooms, e: Event, t: Tally, floats: &mut [f64], words: &mut [u32]) -> Tally
    requires fit { Fit k (length floats.old) (length words.old) }
    requires below { Below (2 ^ 63) t }
    ensures { Added k (event_fan e) t floats.old words.old result floats.new words.new }
{
    let n = t.events;
    if n < k.events as usize {
        room::put_event(k, floats, words, n as u32, e);
    }
    Tally { events: n + 1, ..t }
}

// Adds the event of an end, where it is one.
fn add_end(k: Rooms, end: Option<Event>, t: Tally, floats: &mut [f64], words: &mut [u32]) -> Tally
    requires fit { Fit k (length floats.old) (length words.old) }
    requires below { Below (2 ^ 63) t }
    ensures { Added k (end_fan end) t floats.old words.old result floats.new words.new }
{
    match end {
        Some(e) => add_event(k, e, t, floats, words),
        None => t,
    }
}

// Both ends, the start first.
fn add_ends(
    k: Rooms,
    start: Option<Event>,
    stop: Option<Event>,
    t: Tally,
    floats: &mut [f64],
    words: &mut [u32],
) -> Tally
    requires fit { Fit k (length floats.old) (length words.old) }
    requires below { Below (2 ^ 62) t }
    ensures { Added k (both (end_fan start) (end_fan stop)) t floats.old words.old result floats.new words.new }
{
    let s = add_end(k, start, t, &mut *floats, &mut *words);
    add_end(k, stop, s, floats, words)
}

// Adds what one polygon edge gives.
fn add_side(k: Rooms, found: Found, t: Tally, floats: &mut [f64], words: &mut [u32]) -> Tally
    requires fit { Fit k (length floats.old) (length words.old) }
    requires below { Below (2 ^ 61) t }
    ensures { Added k (side_fan found) t floats.old words.old result floats.new words.new }
{
    let touched = Tally {
        touch: t.touch | found.touch,
        ..t
    };
    let Some(f) = found.seen else {
        return touched;
    };
    let s = add_edge(k, f.edge, touched, &mut *floats, &mut *words);
    add_ends(k, f.start, f.stop, s, floats, words)
}

// The edge i of the polygon whose points are the n from `first` on.
fn side_at(view: View, points: &[f64], first: u32, n: u32, i: u32) -> Found
    requires inside { Inside first n }
    requires i_lt_n { i < n }
    ensures { result ≡ side_at view points.now first n i }
{
    let p = first + i;
    let q = first + (i + 1) % n;
    side(
        view,
        site::point_at(points, p),
        site::point_at(points, q),
        p,
        q,
    )
}

// Adds what the edges of one polygon give.
fn polygon_sides(
    k: Rooms,
    view: View,
    points: &[f64],
    first: u32,
    n: u32,
    t: Tally,
    floats: &mut [f64],
    words: &mut [u32],
) -> Tally
    requires fit { Fit k (length floats.old) (length words.old) }
    requires inside { Inside first n }
    requires below { Below (2 ^ 60) t }
    ensures { Added k (sides_fan view points.now first n n) t floats.old words.old result floats.new words.new }
{
    let mut s = t;
    for i in 0..n {
        let found = side_at(view, points, first, n, i);
        s = add_side(k, found, s, floats, words);
    }
    s
}

// Is the polygon's box out of range?
fn is_far(view: View, boxes: &[f64], id: u32) -> bool
    ensures { result ≡ is_far view boxes.now id }
{
    grid::box_at(boxes, id as usize).distance_sq_to(view.o) > view.r * view.r
}

// Adds what one polygon of the box query gives.
fn add_polygon(
    k: Rooms,
    view: View,
    tables: &SiteTables,
    id: u32,
    t: Tally,
    floats: &mut [f64],
    words: &mut [u32],
) -> Tally
    requires fit { Fit k (length floats.old) (length words.old) }
    requires inside { Inside (first_of tables.now.polygons.now id) (len_of tables.now.polygons.now id) }
    requires below { Below (2 ^ 59) t }
    ensures { Added k (polygon_fan view tables.now.points.now tables.now.boxes.now tables.now.polygons.now id) t floats.old words.old result floats.new words.new }
{
    if is_far(view, tables.boxes, id) {
        return t;
    }
    let s = Tally {
        candidates: t.candidates + 1,
        ..t
    };
    let first = site::first_of(tables.polygons, id);
    let n = site::len_of(tables.polygons, id);
    polygon_sides(k, view, tables.points, first, n, s, floats, words)
}

// Adds what the first n ids in front of the words give.
fn scan(
    k: Rooms,
    view: View,
    tables: &SiteTables,
    n: usize,
    floats: &mut [f64],
    words: &mut [u32],
) -> Tally
    requires { Ready k tables.now.polygons.now n floats.old words.old }
    ensures { Added k (fan_of view tables.now.points.now tables.now.boxes.now tables.now.polygons.now (take n words.old)) zero_tally floats.old words.old result floats.new words.new }
{
    let mut t = Tally {
        candidates: 0,
        edges: 0,
        events: 0,
        touch: false,
    };
    // By place: the words are written while their ids are read.
    for m in 0..n {
        let id = words[m];
        t = add_polygon(k, view, tables, id, t, floats, words);
    }
    t
}

// Finds the front edges of the polygons whose n ids stand in front of the words, and their events. A list that is full is counted on
// without writing.
pub fn front_edges(
    k: Rooms,
    view: View,
    tables: &SiteTables,
    n: usize,
    floats: &mut [f64],
    words: &mut [u32],
) -> Fan
    requires { Ready k tables.now.polygons.now n floats.old words.old }
    ensures { Scanned k (fan_of view tables.now.points.now tables.now.boxes.now tables.now.polygons.now (take n words.old)) result floats.old words.old floats.new words.new }
{
    let t = scan(k, view, tables, n, floats, words);
    Fan {
        candidates: t.candidates,
        edges: t.edges,
        events: t.events,
        touch: t.touch,
        over: ((k.edges as usize) < t.edges) | ((k.events as usize) < t.events),
    }
}
