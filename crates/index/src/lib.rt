// The front edges by angle, and the cast of a ray: `AngularIndex` and `span_buckets` of `visibility.rs` (lines 520 to 610).
// The edges stay where they stand in the work room. The index is an order of nearness, the starts of the buckets, and references, which are
// places of edges: each list in its own stretch of the lent words. Every read of a cast is total.
// Meanings: specs/Spans.antt (buckets), specs/Angular.antt (the index), specs/Casting.antt (the cast in both modes), specs/Rust.antt (the Rust's by
// itself), specs/Stands.antt (where it stands), specs/Filling.antt (the passes of the building).
#![tactic(auto)]

ghost use Rattle.std.specs.Prelude.{◌≡◌, ℕ, suc, ◌+◌, ◌<◌, ◌≤◌, max, true, [], map, length, take, drop, slice_index};
ghost use Rattle.lists.specs.Lists.{bit, sum_to};
ghost use Rattle.lists.specs.Parts.{part};
ghost use Rattle.tables.specs.Scatter.{Room, Put};
ghost use Rattle.geom.specs.Constants.{nano};
ghost use Rattle.geom.specs.Segment.{ray_segment_within};
ghost use Rattle.room.specs.Records.{edge_at};
ghost use Rattle.index.specs.Spans.{buckets_for, head_of, bucket_of, clip_of, spans_by, width_of, covers, edge_bits};
ghost use Rattle.index.specs.Casting.{lower_of, better_of, stop_of, turned_of, none_yet, walk_of, tested_of, ties_at, cast_by, cast_within, cast_of};
ghost use Rattle.index.specs.Stands.{index_in, WalkedAt, Ready, Builds};
ghost use Rattle.index.specs.Filling.{spans_at, refs_to, notes_w, said_of, said_by, meets_of, cut_of, cut_both, Notable, Notes, tally_of, Marked, Counting, Counted, Endable, Ended, PutRoom, PutBoth, Putting, Placed, Fillable, Filled};

use geom::Vec2;
use room::Rooms;
use site::RayHit;

const TAU: f64 = 6.283185307179586;

// Pad so rays exactly at an endpoint still see the edge.
const PAD: f64 = 1e-9;

// How many buckets are filled at a time.
const STRIP: usize = 512;

// The note that says nothing. Every strip of buckets meets it.
const UNSAID: u32 = 65535;

// The head of an index. Its lists stand in the work room. The mode is that of its casts: 0 for the Rust's rule, 1 for ties credited.
#[derive(Clone, Copy)]
pub struct AngularIndex {
    pub inv_width: f64,
    pub buckets: u32,
    pub mode: u32,
}

// Buckets from one up to another, that one out. None where it ends where it begins, or before.
#[derive(Clone, Copy)]
pub struct Stretch {
    pub from: usize,
    pub to: usize,
}

// The buckets of an edge: two stretches where its span wraps past TAU.
#[derive(Clone, Copy)]
pub struct Spans {
    pub first: Stretch,
    pub second: Stretch,
}

// What the building answers: the head, how many references there are, and whether a list passes its entries. A flag beside them and no `Option` around
// them: head and number are promised where a list is over too (`Builds`).
#[derive(Clone, Copy)]
pub struct Indexed {
    pub index: AngularIndex,
    pub refs: usize,
    pub over: bool,
}

// ---- buckets

// How many buckets n edges have.
fn buckets_for(n: usize) -> u32
    ensures { result ≡ buckets_for n }
{
    (2 * n.clamp(8, 32768)) as u32
}

// The head of the index of n edges. `total` is the angle covered by the cone (TAU for a full circle).
fn head(mode: u32, n: usize, total: f64) -> AngularIndex
    ensures { result ≡ head_of mode n total }
{
    let buckets = buckets_for(n);
    AngularIndex {
        inv_width: buckets as f64 / total,
        buckets,
        mode,
    }
}

// The bucket of an angle.
fn bucket(x: AngularIndex, a: f64) -> usize
    ensures { (result ≡ bucket_of x a) × (result ≤ 4294967295) }
{
    let last = (x.buckets as usize).saturating_sub(1);
    (num::to_u64(a * x.inv_width) as usize).min(last)
}

// The buckets from lo to hi, padded.
fn clip(x: AngularIndex, total: f64, lo: f64, hi: f64) -> Stretch
    ensures { result ≡ clip_of x total lo hi }
{
    let l = num::max(lo - PAD, 0.0);
    let h = num::min(hi + PAD, total);
    if l <= h {
        return Stretch {
            from: bucket(x, l),
            to: bucket(x, h) + 1,
        };
    }
    Stretch { from: 0, to: 0 }
}

// The buckets of an edge that covers `len` from `start` on.
fn span_buckets(x: AngularIndex, total: f64, start: f64, len: f64) -> Spans
    ensures { result ≡ spans_by x total start len }
{
    let end = start + len;
    if end <= TAU {
        return Spans {
            first: clip(x, total, start, end),
            second: Stretch { from: 0, to: 0 },
        };
    }
    Spans {
        first: clip(x, total, start, TAU),
        second: clip(x, total, 0.0, end - TAU),
    }
}

// ---- the cast

// The best hit so far: the distance to beat, the number of the edge once one is found, and whether a further one was met at exactly that distance,
// which only counts in mode 1.
#[derive(Clone, Copy)]
pub struct Best {
    pub t: f64,
    pub edge: Option<u32>,
    pub tied: bool,
}

// The two ends of an edge.
#[derive(Clone, Copy)]
struct Ends {
    a: Vec2,
    b: Vec2,
}

// The ends of the edge i: one test of its place for all four numbers. They do not go by the words.
fn ends_at(k: Rooms, floats: &[f64], i: u32) -> Ends
    ensures { (result.a ≡ (edge_at k floats.now [] i).a) × (result.b ≡ (edge_at k floats.now [] i).b) }
{
    let at = room::edges_f(k) + 6 * i as usize;
    if at + 4 <= floats.len() {
        return Ends {
            a: Vec2 {
                x: floats[at],
                y: floats[at + 1],
            },
            b: Vec2 {
                x: floats[at + 2],
                y: floats[at + 3],
            },
        };
    }
    Ends {
        a: Vec2 {
            x: lists::at(floats, at),
            y: lists::at(floats, at + 1),
        },
        b: Vec2 {
            x: lists::at(floats, at + 2),
            y: lists::at(floats, at + 3),
        },
    }
}

// The number of the edge i in the site. It does not go by the floats.
pub fn number_at(k: Rooms, words: &[u32], i: u32) -> u32
    ensures { result ≡ (edge_at k [] words.now i).edge }
{
    lists::at(words, room::edges_w(k) + i as usize)
}

// Of equal distances: in mode 0 the best so far stays, in the other the lower number, once there is one.
fn lower(mode: u32, edge: u32, b: Best) -> Best
    ensures { result ≡ lower_of mode edge b }
{
    match b.edge {
        Some(e) if mode != 0 => Best {
            edge: Some(edge.min(e)),
            tied: true,
            ..b
        },
        _ => b,
    }
}

// The better of the best so far and the edge i, which has these ends.
fn meet(
    k: Rooms,
    slack: f64,
    o: Vec2,
    dir: Vec2,
    mode: u32,
    e: Ends,
    words: &[u32],
    i: u32,
    b: Best,
) -> Best
    ensures { result ≡ better_of mode (ray_segment_within slack o dir e.a e.b) (edge_at k [] words.now i).edge b }
{
    match geom::ray_segment_within(slack, o, dir, e.a, e.b) {
        Some(t) if t < b.t => Best {
            t,
            edge: Some(number_at(k, words, i)),
            tied: false,
        },
        Some(t) if t == b.t => lower(mode, number_at(k, words, i), b),
        _ => b,
    }
}

// Does an edge so near end the walk? In mode 0 one that is not nearer than the best does, in the other one that is farther.
fn stops(mode: u32, best: f64, near: f64) -> bool
    ensures { result ≡ stop_of mode best near }
{
    if mode == 0 {
        return near >= best;
    }
    near > best
}

// What a walk comes to: the best, and the words from one place up to another, which name the edges tested.
#[derive(Clone, Copy)]
pub struct Walked {
    pub best: Best,
    pub from: usize,
    pub to: usize,
}

// The edges that the words from one place up to another name, in turn, until one ends the walk.
fn walk(
    k: Rooms,
    slack: f64,
    floats: &[f64],
    words: &[u32],
    from: usize,
    to: usize,
    o: Vec2,
    dir: Vec2,
    mode: u32,
    max: f64,
) -> Walked
    ensures best_value { result.best ≡ walk_of slack o dir mode (none_yet max) (map (edge_at k floats.now words.now) (part from to words.now)) }
    ensures from_value { (result.from ≡ from) × (result.to ≡ from + length (tested_of slack o dir mode (none_yet max) (map (edge_at k floats.now words.now) (part from to words.now)))) }
{
    let end = to.min(words.len()).max(from);
    let mut b = Best {
        t: max,
        edge: None,
        tied: false,
    };
    for j in from..end {
        let i = words[j];
        let near = lists::at(floats, i as usize);
        if stops(mode, b.t, near) {
            return Walked {
                best: b,
                from,
                to: j,
            };
        }
        let e = ends_at(k, floats, i);
        b = meet(k, slack, o, dir, mode, e, words, i, b);
    }
    Walked {
        best: b,
        from,
        to: end,
    }
}

// The angle of a ray past the seam of a full circle, brought back.
fn turned(angle: f64) -> f64
    ensures { result ≡ turned_of angle }
{
    if angle >= TAU {
        return angle - TAU;
    }
    angle
}

// The walk of the bucket that the angle lies in: what a cast is made of.
pub fn walk_at(
    slack: f64,
    k: Rooms,
    x: AngularIndex,
    floats: &[f64],
    words: &[u32],
    o: Vec2,
    angle: f64,
    dir: Vec2,
    max: f64,
) -> Walked
    ensures { WalkedAt slack k x floats.now words.now o angle dir max result.best result.from result.to }
{
    if x.buckets == 0 {
        return Walked {
            best: Best {
                t: max,
                edge: None,
                tied: false,
            },
            from: 0,
            to: 0,
        };
    }
    let at = room::starts_w(k) + bucket(x, num::max(turned(angle), 0.0));
    let refs = room::refs_w(k);
    let from = refs + lists::at(words, at) as usize;
    let to = refs + lists::at(words, at + 1) as usize;
    walk(k, slack, floats, words, from, to, o, dir, x.mode, max)
}

// What a cast whose walk came to b answers.
pub fn hit_of(b: Best) -> Option<RayHit>
    ensures { result ≡ cast_by b }
{
    match b.edge {
        Some(edge) => Some(RayHit { t: b.t, edge }),
        None => None,
    }
}

// The nearest edge that the ray from o along dir, at the angle from the cone's start, hits within max. `slack` is that of `ray_segment_within`.
pub fn cast_within(
    slack: f64,
    k: Rooms,
    x: AngularIndex,
    floats: &[f64],
    words: &[u32],
    o: Vec2,
    angle: f64,
    dir: Vec2,
    max: f64,
) -> Option<RayHit>
    ensures { result ≡ cast_within slack (index_in k floats.now words.now x) o angle dir max }
{
    let w = walk_at(slack, k, x, floats, words, o, angle, dir, max);
    hit_of(w.best)
}

// `AngularIndex::cast` of the Rust: the slack is 1e-9.
pub fn cast(
    k: Rooms,
    x: AngularIndex,
    floats: &[f64],
    words: &[u32],
    o: Vec2,
    angle: f64,
    dir: Vec2,
    max: f64,
) -> Option<RayHit>
    ensures { result ≡ cast_of (index_in k floats.now words.now x) o angle dir max }
{
    cast_within(1e-9, k, x, floats, words, o, angle, dir, max)
}

// Does the ray meet the edge i at exactly the distance t?
pub fn ties(k: Rooms, floats: &[f64], o: Vec2, dir: Vec2, t: f64, i: u32) -> bool
    ensures { result ≡ ties_at nano o dir t (edge_at k floats.now [] i) }
{
    let e = ends_at(k, floats, i);
    match geom::ray_segment_within(1e-9, o, dir, e.a, e.b) {
        Some(s) => s == t,
        None => false,
    }
}

// ---- the building

// How many buckets a stretch has.
fn width(s: Stretch) -> usize
    ensures { result ≡ width_of s }
{
    s.to.saturating_sub(s.from)
}

// The buckets of the edge i. They do not go by the words.
fn edge_spans(k: Rooms, x: AngularIndex, total: f64, floats: &[f64], i: u32) -> Spans
    ensures { result ≡ spans_at k floats.now x total i }
{
    let at = room::edges_f(k) + 6 * i as usize;
    span_buckets(
        x,
        total,
        lists::at(floats, at + 4),
        lists::at(floats, at + 5),
    )
}

// How many references the n edges have.
fn count_refs(k: Rooms, x: AngularIndex, total: f64, floats: &[f64], n: usize) -> usize
    requires { (0 < x.buckets) × (x.buckets ≤ 65536) × (n ≤ 4294967295) }
    ensures { result ≡ refs_to k floats.now x total n }
{
    let mut refs: usize = 0;
    for i in 0..n as u32 {
        let s = edge_spans(k, x, total, floats, i);
        refs += width(s.first) + width(s.second);
    }
    refs
}

// ---- an edge's buckets, noted

// One stretch that has a bucket, in one word: its first bucket and its last. All others are not said.
fn note(s: Spans) -> u32
    requires { s.first.to ≤ 65536 }
    ensures { said_by result s ≡ s }
{
    let from = s.first.from;
    let to = s.first.to;
    if s.second.from == 0 && s.second.to == 0 && from < to {
        return (65536 * from + (to - 1)) as u32;
    }
    UNSAID
}

// The buckets that the note p says.
fn said(p: u32) -> Spans
    ensures { result ≡ said_of p }
{
    Spans {
        first: Stretch {
            from: (p / 65536) as usize,
            to: (p % 65536) as usize + 1,
        },
        second: Stretch { from: 0, to: 0 },
    }
}

// May the edge of the note p have a bucket from lo up to hi? One that is not said may.
fn meets(p: u32, lo: usize, hi: usize) -> bool
    requires { hi ≤ 131072 }
    ensures { result ≡ meets_of p lo hi }
{
    ((p as usize) < 65536 * hi) & (lo <= (p % 65536) as usize)
}

// Where the notes stand: behind the order of nearness, in the scratch of its sort.
fn notes_w(k: Rooms) -> usize
    ensures { result ≡ notes_w k }
{
    room::nearest_w(k) + k.edges as usize
}

// Notes the buckets of each edge, in order of nearness.
fn note_all(k: Rooms, x: AngularIndex, total: f64, floats: &[f64], n: usize, words: &mut [u32])
    requires { Notable k floats.now x n words.old }
    ensures { Notes k floats.now x total n words.old words.new }
{
    let order = room::nearest_w(k);
    let notes = notes_w(k);
    for r in 0..n {
        let i = words[order + r];
        words[notes + r] = note(edge_spans(k, x, total, floats, i));
    }
}

// ---- counting

// Marks a stretch: one more at its first bucket and one less behind its last, both as a `u32` wraps. So what the marks up to a bucket come to is one more
// in the stretch alone.
fn mark_stretch(starts: &mut [u32], s: Stretch)
    requires { s.to < length starts.old }
    ensures { Marked (λ b. bit (covers s b)) s.to starts.old starts.new }
{
    let from = s.from;
    let to = s.to;
    if from < to {
        starts[from] = starts[from].wrapping_add(1);
        starts[to] = starts[to].wrapping_sub(1);
    }
}

// Marks both stretches of an edge.
fn mark_edge(starts: &mut [u32], s: Spans)
    requires { (s.first.to < length starts.old) × (s.second.to < length starts.old) }
    ensures { Marked (edge_bits s) (max s.first.to s.second.to) starts.old starts.new }
{
    mark_stretch(&mut *starts, s.second);
    mark_stretch(starts, s.first);
}

// Writes, at each place, the sum of what the marks up to each place in front of it and up to its own come to.
fn sum_marks(starts: &mut [u32])
    requires { sum_to (tally_of starts.old) (length starts.old) ≤ 4294967295 }
    ensures { (b : ℕ) → b < length starts.old → slice_index starts.new b ≡ sum_to (tally_of starts.old) (suc b) }
{
    let mut tally: u32 = 0;
    let mut sum: u32 = 0;
    for start in starts.iter_mut() {
        tally = tally.wrapping_add(*start);
        sum += tally;
        *start = sum;
    }
}

// Marks all edges: what the marks up to a bucket come to is how many edges cover it.
fn mark_all(k: Rooms, x: AngularIndex, total: f64, floats: &[f64], n: usize, words: &mut [u32])
    requires { Counting k floats.now x total n words.old }
    ensures { Counted k floats.now x total n words.old words.new }
{
    let order = room::nearest_w(k);
    let notes = notes_w(k);
    let starts = room::starts_w(k);
    for r in (0..n).rev() {
        let i = words[order + r];
        let p = words[notes + r];
        let s = if p == UNSAID {
            edge_spans(k, x, total, floats, i)
        } else {
            said(p)
        };
        mark_edge(&mut words[starts..], s);
    }
}

// Writes, at each bucket, where its block ends. The last end is the number of references.
fn block_ends(
    k: Rooms,
    x: AngularIndex,
    total: f64,
    floats: &[f64],
    n: usize,
    words: &mut [u32],
) -> usize
    requires { Endable k floats.now x total n words.old }
    ensures { Ended k floats.now x total n words.old result words.new }
{
    let count = x.buckets as usize;
    let starts = room::starts_w(k);
    let last = starts + count;
    let end = last + 1;
    lists::clear(&mut words[starts..end]);
    mark_all(k, x, total, floats, n, &mut *words);
    sum_marks(&mut words[starts..end]);
    words[last] as usize
}

// Puts id into the blocks of the buckets of a stretch, each in front of what its block holds. The blocks' starts stand in front, the references
// from `refs` on.
fn put_stretch(w: &mut [u32], refs: usize, s: Stretch, id: u32)
    requires { (s.to ≤ refs) × (refs ≤ length w.old) × Room (covers s) (take refs w.old) (drop refs w.old) }
    ensures { Put (covers s) id (take refs w.old) (drop refs w.old) (take refs w.new) (drop refs w.new) }
{
    for b in s.from..s.to {
        let at = w[b] - 1;
        w[b] = at;
        w[refs + at as usize] = id;
    }
}

// Puts id into the blocks of the buckets of an edge.
fn put_edge(w: &mut [u32], refs: usize, s: Spans, id: u32)
    requires { PutRoom refs s w.old }
    ensures { PutBoth refs s id w.old w.new }
{
    put_stretch(&mut *w, refs, s.second, id);
    put_stretch(w, refs, s.first, id);
}

// The part of a stretch from lo up to hi.
fn cut(s: Stretch, lo: usize, hi: usize) -> Stretch
    ensures { result ≡ cut_of lo hi s }
{
    Stretch {
        from: s.from.max(lo),
        to: s.to.min(hi),
    }
}

// The same of both stretches.
fn cut_both(s: Spans, lo: usize, hi: usize) -> Spans
    ensures { result ≡ cut_both lo hi s }
{
    Spans {
        first: cut(s.first, lo, hi),
        second: cut(s.second, lo, hi),
    }
}

// Puts every edge into the blocks of its buckets, from the farthest to the nearest, so that the nearest is first in each block. So many buckets are
// filled at a time that the places written to stay in the nearest cache: a view of a large site has a million references, all over 4 MB.
fn put_all(k: Rooms, x: AngularIndex, total: f64, floats: &[f64], n: usize, words: &mut [u32])
    requires { Putting k floats.now x total n words.old }
    ensures { Placed k floats.now x total n words.old words.new }
{
    let order = room::nearest_w(k);
    let notes = notes_w(k);
    let starts = room::starts_w(k);
    let refs = k.starts as usize;
    let count = x.buckets as usize;
    for lo in (0..count).step_by(STRIP) {
        let hi = lo + STRIP;
        for r in (0..n).rev() {
            let p = words[notes + r];
            if meets(p, lo, hi) {
                let i = words[order + r];
                let s = if p == UNSAID {
                    edge_spans(k, x, total, floats, i)
                } else {
                    said(p)
                };
                put_edge(&mut words[starts..], refs, cut_both(s, lo, hi), i);
            }
        }
    }
}

// Writes the starts and, where they fit, the references. The references are not cleared before: each is written.
fn fill(
    k: Rooms,
    x: AngularIndex,
    total: f64,
    floats: &[f64],
    n: usize,
    words: &mut [u32],
) -> Indexed
    requires { Fillable k floats.now x total n words.old }
    ensures { Filled k floats.now x total n words.old result words.new }
{
    note_all(k, x, total, floats, n, &mut *words);
    let refs = block_ends(k, x, total, floats, n, &mut *words);
    if (k.refs as usize) < refs {
        return Indexed {
            index: x,
            refs,
            over: true,
        };
    }
    put_all(k, x, total, floats, n, words);
    Indexed {
        index: x,
        refs,
        over: false,
    }
}

// `AngularIndex::build` of the Rust: the n edges of the room by angle, for casts in a mode. `total` is the angle covered by the cone (TAU for a full circle). Where the
// starts pass their entries, neither they nor the references are written. Where the references do, they are not written, and the starts hold anything.
pub fn build(
    mode: u32,
    k: Rooms,
    n: usize,
    total: f64,
    floats: &[f64],
    words: &mut [u32],
) -> Indexed
    requires { Ready k floats.now words.old n }
    ensures { Builds mode k floats.now words.old n total result words.new }
{
    sorts::order_keys(
        floats,
        &mut *words,
        0,
        n,
        room::nearest_w(k),
        room::events_w(k),
    );
    let x = head(mode, n, total);
    if k.starts <= x.buckets {
        return Indexed {
            index: x,
            refs: count_refs(k, x, total, floats, n),
            over: true,
        };
    }
    // So few edges have fewer than 2^32 references: each is at most twice in each of 65,536 buckets.
    if n < 32768 {
        return fill(k, x, total, floats, n, words);
    }
    // More are counted first, so that no start passes a `u32`.
    let refs = count_refs(k, x, total, floats, n);
    if (k.refs as usize) < refs {
        return Indexed {
            index: x,
            refs,
            over: true,
        };
    }
    fill(k, x, total, floats, n, words)
}
