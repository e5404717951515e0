// The events of an outline merged: `visibility.rs`, lines 335 to 371. The straight sides of a sector join the events, all are put in order of
// angle, and those less than 1e-12 after the kept one are merged into it; other corners are kept aside, each event's sorted by vertex.
// Meanings: specs/Spots.antt (the merged events), specs/Held.antt (what the room holds of them).
#![tactic(auto)]

ghost use Rattle.std.specs.Prelude.{◌≡◌, [], ◌∷◌, ◌++◌, ◌+◌, ◌≤◌, length};
ghost use Rattle.num.specs.Ops.{zero_f};
ghost use Rattle.lists.specs.Lists.{listed};
ghost use Rattle.lists.specs.Parts.{Only};
ghost use Rattle.room.specs.Layout.{events_f, merged_f, samples_f, events_w, turns_w, starts_w, Fit};
ghost use Rattle.room.specs.Records.{events_in};
ghost use Rattle.events.specs.Spots.{is_near, is_aside, kept_of, side_at, sides_of};
ghost use Rattle.events.specs.Held.{turn_at, open_of, join_of, Closing, Closed, Frame, Turns, Ends, Done, Merges};

use room::{Event, Merged, Rooms};

// The event that is open: its angle, corner and side so far, how many corners were kept aside before it and with it, and how many events are
// closed.
#[derive(Clone, Copy)]
struct Open {
    angle: f64,
    vertex: u32,
    side: bool,
    first: u32,
    corners: u32,
    spots: u32,
}

// What merging answers: the entries of each list, and whether one passed the entries allowed to it.
// A flag beside them and no `Option` around them: the numbers are promised where a list is over too (`Merges`).
#[derive(Clone, Copy)]
pub struct Merging {
    pub unmerged: usize,
    pub events: usize,
    pub corners: usize,
    pub over: bool,
}

// Is b less than 1e-12 after a?
fn is_near(a: f64, b: f64) -> bool
    ensures { result ≡ is_near a b }
{
    b - a < 1e-12
}

// Is the corner b another one than the kept one, a?
fn is_aside(a: u32, b: u32) -> bool
    ensures { result ≡ is_aside a b }
{
    a != room::NO_VERTEX && b != room::NO_VERTEX && b != a
}

// The corner that is kept of two.
fn kept(a: u32, b: u32) -> u32
    ensures { result ≡ kept_of a b }
{
    if a == room::NO_VERTEX { b } else { a }
}

// Opens e: so many corners and events are behind it.
fn begin(e: Event, corners: u32, spots: u32) -> Open
    ensures { result ≡ open_of e corners spots }
{
    Open {
        angle: e.angle,
        vertex: e.vertex,
        side: e.side,
        first: corners,
        corners,
        spots,
    }
}

// Merges e into the open event, which has so many corners now.
fn join(g: Open, e: Event, corners: u32) -> Open
    ensures { result ≡ join_of g e corners }
{
    Open {
        vertex: kept(g.vertex, e.vertex),
        side: g.side | e.side,
        corners,
        ..g
    }
}

// The t-th event in order of angle.
fn turn_at(k: Rooms, floats: &[f64], words: &[u32], t: u32) -> Event
    ensures { result ≡ turn_at k floats.now words.now t }
{
    let at = room::turns_w(k) + t as usize;
    room::event_at(k, floats, words, lists::at(words, at))
}

// Writes the open event behind the closed ones, and sorts its corners.
fn close(k: Rooms, floats: &mut [f64], words: &mut [u32], g: Open)
    requires { Closing k floats.old words.old g }
    ensures { Closed k g floats.old words.old floats.new words.new }
{
    let from = room::corners_w(k) + g.first as usize;
    let n = g.corners as usize - g.first as usize;
    let to = room::starts_w(k);
    sorts::sort_numbers(&mut *words, n, from, to);
    let e = Merged {
        angle: g.angle,
        vertex: g.vertex,
        side: g.side,
        end: g.corners,
    };
    room::put_merged(k, floats, words, g.spots, e);
}

// Goes through the m events in order: each is merged into the open one, or closes it. The last one is still open then; none where there is no
// room for a corner.
fn gather(k: Rooms, floats: &mut [f64], words: &mut [u32], m: u32) -> Option<Open>
    requires { Turns k m floats.old words.old }
    ensures ends { Ends k (listed (turn_at k floats.old words.old) m) floats.new words.new result }
    ensures frame { Frame k floats.old words.old floats.new words.new }
{
    let mut g = begin(turn_at(k, floats, words, 0), 0, 0);
    for t in 1..m {
        let e = turn_at(k, floats, words, t);
        if !is_near(g.angle, e.angle) {
            close(k, &mut *floats, &mut *words, g);
            g = begin(e, g.corners, g.spots + 1);
        } else if is_aside(g.vertex, e.vertex) {
            if k.corners <= g.corners {
                return None;
            }
            let at = room::corners_w(k) + g.corners as usize;
            lists::put(&mut *words, at, e.vertex);
            g = join(g, e, g.corners + 1);
        } else {
            g = join(g, e, g.corners);
        }
    }
    Some(g)
}

// Merges the m events that stand in order.
fn merge_turns(k: Rooms, floats: &mut [f64], words: &mut [u32], m: u32) -> Merging
    requires { Turns k m floats.old words.old }
    ensures done { Done k (listed (turn_at k floats.old words.old) m) floats.new words.new result }
    ensures frame { Frame k floats.old words.old floats.new words.new }
{
    let Some(g) = gather(k, &mut *floats, &mut *words, m) else {
        return Merging {
            unmerged: m as usize,
            events: 0,
            corners: 0,
            over: true,
        };
    };
    close(k, floats, words, g);
    Merging {
        unmerged: m as usize,
        events: g.spots as usize + 1,
        corners: g.corners as usize,
        over: false,
    }
}

// Puts the m events in order of angle and merges them.
fn merge_sorted(k: Rooms, floats: &mut [f64], words: &mut [u32], m: u32) -> Merging
    requires { Fit k (length floats.old) (length words.old) × (m ≤ k.events) }
    ensures merges { Merges k (events_in k floats.old words.old m) floats.new words.new result }
    ensures only { Only (merged_f k) (samples_f k) floats.old floats.new × Only (turns_w k) (starts_w k) words.old words.new }
{
    if m == 0 {
        return Merging {
            unmerged: 0,
            events: 0,
            corners: 0,
            over: false,
        };
    }
    let from = room::events_f(k);
    let to = room::turns_w(k);
    let end = room::merged_w(k);
    sorts::order_keys(floats, &mut *words, from, m as usize, to, end);
    merge_turns(k, floats, words, m)
}

// The two straight sides of a sector, behind the n events.
fn push_sides(k: Rooms, floats: &mut [f64], words: &mut [u32], fov: f64, n: u32)
    requires { Fit k (length floats.old) (length words.old) × (n + 2 ≤ k.events) }
    ensures n_after { events_in k floats.new words.new (n + 2) ≡ events_in k floats.old words.old n ++ (side_at zero_f ∷ side_at fov ∷ []) }
    ensures only { Only (events_f k) (merged_f k) floats.old floats.new × Only (events_w k) (turns_w k) words.old words.new }
{
    let first = Event {
        angle: 0.0,
        vertex: room::NO_VERTEX,
        side: true,
    };
    room::put_event(k, &mut *floats, &mut *words, n, first);
    let last = Event {
        angle: fov,
        vertex: room::NO_VERTEX,
        side: true,
    };
    room::put_event(k, floats, words, n + 1, last);
}

// Merges the n events that stand in the room, with the sides of a sector unless the view is full. Over where a list passes the entries
// allowed to it.
pub fn merge_events(
    k: Rooms,
    full: bool,
    fov: f64,
    n: u32,
    floats: &mut [f64],
    words: &mut [u32],
) -> Merging
    requires { Fit k (length floats.old) (length words.old) × (n ≤ k.events) }
    ensures merges { Merges k (events_in k floats.old words.old n ++ sides_of full fov) floats.new words.new result }
    ensures only { Only (events_f k) (samples_f k) floats.old floats.new × Only (events_w k) (starts_w k) words.old words.new }
{
    if full {
        return merge_sorted(k, floats, words, n);
    }
    if k.events - n < 2 {
        return Merging {
            unmerged: n as usize + 2,
            events: 0,
            corners: 0,
            over: true,
        };
    }
    push_sides(k, &mut *floats, &mut *words, fov, n);
    merge_sorted(k, floats, words, n + 2)
}
