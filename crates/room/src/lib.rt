// The work room of an outline: the entries that its caller states, where each list stands in the two lent slices, and the records that stand
// there, read and written by value. Document 01, "Refusal numbers" ("The caller of an outline states the entries allowed to each work list")
// and "What must change shape" ("one lent work room is cut up, and each stage writes its own stretch of it"); the records are those of
// `visibility.rs`, lines 213 to 244. The table of numbers for each entry is docs/ROOM.md.
// An entry's number is a `u32`, so no place of it can pass a `usize`. Every read is total: past the end a number is 0 and a float is NaN.
// Meanings: specs/Layout.antt (where the lists stand), specs/Records.antt (what stands there).
#![tactic(auto)]

ghost use Rattle.std.specs.Prelude.{◌≡◌, ◌≤◌, ◌<◌, length};
ghost use Rattle.room.specs.Layout.{edges_f, events_f, merged_f, samples_f, distances_f, dirs_f, floats_for, edges_w, nearest_w, events_w, turns_w, merged_w, corners_w, starts_w, refs_w, samples_w, order_w, seen_w, words_for, is_short, Place};
ghost use Rattle.room.specs.Records.{tag_of, distance_of, number_of, cast_from, edge_at, event_at, merged_at, sample_at, dir_at, tie_at, EdgePut, EventPut, MergedPut, SamplePut, HitPut, DirPut};

use geom::Vec2;
use site::RayHit;

// How many entries the caller allows to each list: ids of the box query, front edges, unmerged events, kept-aside corners, samples, bucket
// starts, angular references, owners, and corners seen at one event.
#[derive(Clone, Copy)]
pub struct Rooms {
    pub ids: u32,
    pub edges: u32,
    pub events: u32,
    pub corners: u32,
    pub samples: u32,
    pub starts: u32,
    pub refs: u32,
    pub owners: u32,
    pub seen: u32,
}

// The vertex of an event that has none. A number and no `Option`, as it is a word of the lent room.
pub const NO_VERTEX: u32 = 4294967295;

// How far off its event a ray is.
pub const ANGLE_EPS: f64 = 1e-8;

// A front-facing edge clipped to the range circle.
#[derive(Clone, Copy)]
pub struct LocalEdge {
    pub a: Vec2,
    pub b: Vec2,
    // closest distance from the viewer
    pub near: f64,
    pub edge: u32,
    // angles covered, relative to the cone's start: from `span_start` counter-clockwise by `span_len`
    pub span_start: f64,
    pub span_len: f64,
}

// An angle at which the nearest edge can change. The corner itself is not stored: it is the point of its number, bit for bit.
#[derive(Clone, Copy)]
pub struct Event {
    pub angle: f64,
    pub vertex: u32,
    pub side: bool,
}

// An event after merging, with the number of kept-aside corners up to and with its own.
#[derive(Clone, Copy)]
pub struct Merged {
    pub angle: f64,
    pub vertex: u32,
    pub side: bool,
    pub end: u32,
}

// One ray: its angle, its event, 0 before the event, 1 at it and 2 after it, and what the cast answers.
#[derive(Clone, Copy)]
pub struct Sample {
    pub angle: f64,
    pub event: u32,
    pub offset: u32,
    pub hit: Option<RayHit>,
}

// ---- where the lists stand in the floats

// The edges' own numbers; their nearest distances stand before them, from 0 on.
pub fn edges_f(k: Rooms) -> usize
    ensures { result ≡ edges_f k }
{
    k.edges as usize
}

// The events' angles.
pub fn events_f(k: Rooms) -> usize
    ensures { result ≡ events_f k }
{
    7 * (k.edges as usize)
}

// The merged events' angles.
pub fn merged_f(k: Rooms) -> usize
    ensures { result ≡ merged_f k }
{
    events_f(k) + k.events as usize
}

// The samples' angles.
pub fn samples_f(k: Rooms) -> usize
    ensures { result ≡ samples_f k }
{
    merged_f(k) + k.events as usize
}

// The samples' distances.
pub fn distances_f(k: Rooms) -> usize
    ensures { result ≡ distances_f k }
{
    samples_f(k) + k.samples as usize
}

// The samples' directions.
pub fn dirs_f(k: Rooms) -> usize
    ensures { result ≡ dirs_f k }
{
    distances_f(k) + k.samples as usize
}

// How many floats the room needs.
pub fn floats_for(k: Rooms) -> usize
    ensures { result ≡ floats_for k }
{
    dirs_f(k) + 2 * (k.samples as usize)
}

// ---- where the lists stand in the words; the ids stand from 0 on

// The edges' numbers in the site.
pub fn edges_w(k: Rooms) -> usize
    ensures { result ≡ edges_w k }
{
    k.ids as usize
}

// The edges in order of nearness, and the scratch of their sort.
pub fn nearest_w(k: Rooms) -> usize
    ensures { result ≡ nearest_w k }
{
    edges_w(k) + k.edges as usize
}

// The events' vertices and sides.
pub fn events_w(k: Rooms) -> usize
    ensures { result ≡ events_w k }
{
    nearest_w(k) + 2 * (k.edges as usize)
}

// The events in order of angle, and the scratch of their sort.
pub fn turns_w(k: Rooms) -> usize
    ensures { result ≡ turns_w k }
{
    events_w(k) + 2 * (k.events as usize)
}

// The merged events' vertices, sides and ends.
pub fn merged_w(k: Rooms) -> usize
    ensures { result ≡ merged_w k }
{
    turns_w(k) + 2 * (k.events as usize)
}

// The kept-aside corners, and the scratch of their sort.
pub fn corners_w(k: Rooms) -> usize
    ensures { result ≡ corners_w k }
{
    merged_w(k) + 3 * (k.events as usize)
}

// Where the buckets start.
pub fn starts_w(k: Rooms) -> usize
    ensures { result ≡ starts_w k }
{
    corners_w(k) + 2 * (k.corners as usize)
}

// The angular references.
pub fn refs_w(k: Rooms) -> usize
    ensures { result ≡ refs_w k }
{
    starts_w(k) + k.starts as usize
}

// The samples' events, offsets, tags and edges.
pub fn samples_w(k: Rooms) -> usize
    ensures { result ≡ samples_w k }
{
    refs_w(k) + k.refs as usize
}

// The samples in order of angle, and the scratch of their sort.
pub fn order_w(k: Rooms) -> usize
    ensures { result ≡ order_w k }
{
    samples_w(k) + 4 * (k.samples as usize)
}

// The corners seen at one event.
pub fn seen_w(k: Rooms) -> usize
    ensures { result ≡ seen_w k }
{
    order_w(k) + 2 * (k.samples as usize)
}

// How many words the room needs.
pub fn words_for(k: Rooms) -> usize
    ensures { result ≡ words_for k }
{
    seen_w(k) + k.seen as usize
}

// Is the lent room, so many floats and so many words, too short for the stated entries?
pub fn is_short(k: Rooms, floats: usize, words: usize) -> bool
    ensures { result ≡ is_short k floats words }
{
    (floats < floats_for(k)) | (words < words_for(k))
}

// ---- an answer of a cast as three numbers: 1, or 2 where it was tied, and the distance and the edge, or zeros for a miss

fn tag_of(h: Option<RayHit>, tied: bool) -> u32
    ensures { result ≡ tag_of h tied }
{
    match h {
        Some(_) if tied => 2,
        Some(_) => 1,
        None => 0,
    }
}

fn distance_of(h: Option<RayHit>) -> f64
    ensures { result ≡ distance_of h }
{
    match h {
        Some(h) => h.t,
        None => 0.0,
    }
}

fn number_of(h: Option<RayHit>) -> u32
    ensures { result ≡ number_of h }
{
    match h {
        Some(h) => h.edge,
        None => 0,
    }
}

fn cast_from(tag: u32, t: f64, edge: u32) -> Option<RayHit>
    ensures { result ≡ cast_from tag t edge }
{
    match tag {
        0 => None,
        _ => Some(RayHit { t, edge }),
    }
}

// ---- reading

// The edge i.
pub fn edge_at(k: Rooms, floats: &[f64], words: &[u32], i: u32) -> LocalEdge
    ensures { result ≡ edge_at k floats.now words.now i }
{
    let n = i as usize;
    let at = edges_f(k) + 6 * n;
    LocalEdge {
        a: Vec2 {
            x: lists::at(floats, at),
            y: lists::at(floats, at + 1),
        },
        b: Vec2 {
            x: lists::at(floats, at + 2),
            y: lists::at(floats, at + 3),
        },
        near: lists::at(floats, n),
        edge: lists::at(words, edges_w(k) + n),
        span_start: lists::at(floats, at + 4),
        span_len: lists::at(floats, at + 5),
    }
}

// The event i.
pub fn event_at(k: Rooms, floats: &[f64], words: &[u32], i: u32) -> Event
    ensures { result ≡ event_at k floats.now words.now i }
{
    let n = i as usize;
    let at = events_w(k) + 2 * n;
    Event {
        angle: lists::at(floats, events_f(k) + n),
        vertex: lists::at(words, at),
        side: lists::at(words, at + 1) == 1,
    }
}

// The merged event i.
pub fn merged_at(k: Rooms, floats: &[f64], words: &[u32], i: u32) -> Merged
    ensures { result ≡ merged_at k floats.now words.now i }
{
    let n = i as usize;
    let at = merged_w(k) + 3 * n;
    Merged {
        angle: lists::at(floats, merged_f(k) + n),
        vertex: lists::at(words, at),
        side: lists::at(words, at + 1) == 1,
        end: lists::at(words, at + 2),
    }
}

// The sample i.
pub fn sample_at(k: Rooms, floats: &[f64], words: &[u32], i: u32) -> Sample
    ensures { result ≡ sample_at k floats.now words.now i }
{
    let n = i as usize;
    let at = samples_w(k) + 4 * n;
    let hit = cast_from(
        lists::at(words, at + 2),
        lists::at(floats, distances_f(k) + n),
        lists::at(words, at + 3),
    );
    Sample {
        angle: lists::at(floats, samples_f(k) + n),
        event: lists::at(words, at),
        offset: lists::at(words, at + 1),
        hit,
    }
}

// Was the answer of the sample i tied?
pub fn tie_at(k: Rooms, words: &[u32], i: u32) -> bool
    ensures { result ≡ tie_at k words.now i }
{
    let at = samples_w(k) + 4 * i as usize;
    lists::at(words, at + 2) == 2
}

// The direction of the sample i.
pub fn dir_at(k: Rooms, floats: &[f64], i: u32) -> Vec2
    ensures { result ≡ dir_at k floats.now i }
{
    let at = dirs_f(k) + 2 * i as usize;
    Vec2 {
        x: lists::at(floats, at),
        y: lists::at(floats, at + 1),
    }
}

// ---- writing: each entry into its own part of the room

// Makes e the edge i.
pub fn put_edge(k: Rooms, floats: &mut [f64], words: &mut [u32], i: u32, e: LocalEdge)
    requires { Place k (length floats.old) (length words.old) k.edges i }
    ensures { EdgePut k i e floats.old words.old floats.new words.new }
{
    let n = i as usize;
    let own = edges_f(k);
    lists::put(&mut floats[0..own], n, e.near);
    let at = own + 6 * n;
    // its own numbers: the ends and the span
    floats[at..at + 6].copy_from_slice(&[e.a.x, e.a.y, e.b.x, e.b.y, e.span_start, e.span_len]);
    let from = edges_w(k);
    let to = nearest_w(k);
    lists::put(&mut words[from..to], n, e.edge);
}

// Makes e the event i.
pub fn put_event(k: Rooms, floats: &mut [f64], words: &mut [u32], i: u32, e: Event)
    requires { Place k (length floats.old) (length words.old) k.events i }
    ensures { EventPut k i e floats.old words.old floats.new words.new }
{
    let n = i as usize;
    let from = events_f(k);
    let to = merged_f(k);
    lists::put(&mut floats[from..to], n, e.angle);
    let at = events_w(k) + 2 * n;
    words[at..at + 2].copy_from_slice(&[e.vertex, e.side as u32]);
}

// Makes e the merged event i.
pub fn put_merged(k: Rooms, floats: &mut [f64], words: &mut [u32], i: u32, e: Merged)
    requires { Place k (length floats.old) (length words.old) k.events i }
    ensures { MergedPut k i e floats.old words.old floats.new words.new }
{
    let n = i as usize;
    let from = merged_f(k);
    let to = samples_f(k);
    lists::put(&mut floats[from..to], n, e.angle);
    let at = merged_w(k) + 3 * n;
    words[at..at + 3].copy_from_slice(&[e.vertex, e.side as u32, e.end]);
}

// Makes s the sample i.
pub fn put_sample(k: Rooms, floats: &mut [f64], words: &mut [u32], i: u32, s: Sample)
    requires { Place k (length floats.old) (length words.old) k.samples i }
    ensures { SamplePut k i s floats.old words.old floats.new words.new }
{
    let h = s.hit;
    let n = i as usize;
    let from = samples_f(k);
    let mid = distances_f(k);
    let to = dirs_f(k);
    lists::put(&mut floats[from..mid], n, s.angle);
    lists::put(&mut floats[mid..to], n, distance_of(h));
    let at = samples_w(k) + 4 * n;
    words[at..at + 4].copy_from_slice(&[s.event, s.offset, tag_of(h, false), number_of(h)]);
}

// Makes h the answer of the sample i, with a note whether it was tied, and leaves its angle, event and offset.
pub fn put_hit(
    k: Rooms,
    floats: &mut [f64],
    words: &mut [u32],
    i: u32,
    h: Option<RayHit>,
    tied: bool,
)
    requires { Place k (length floats.old) (length words.old) k.samples i }
    ensures { HitPut k i h tied floats.old words.old floats.new words.new }
{
    let n = i as usize;
    let mid = distances_f(k);
    let to = dirs_f(k);
    lists::put(&mut floats[mid..to], n, distance_of(h));
    let at = samples_w(k) + 4 * n + 2;
    words[at..at + 2].copy_from_slice(&[tag_of(h, tied), number_of(h)]);
}

// Makes d the direction of the sample i.
pub fn put_dir(k: Rooms, floats: &mut [f64], i: u32, d: Vec2)
    requires { (floats_for k ≤ length floats.old) × (i < k.samples) }
    ensures { DirPut k i d floats.old floats.new }
{
    let at = dirs_f(k) + 2 * i as usize;
    floats[at..at + 2].copy_from_slice(&[d.x, d.y]);
}
