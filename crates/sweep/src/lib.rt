// The sweep: the samples in order of angle are walked, and the outline and the marks of the polygons seen are made (`visibility.rs`, lines 419 to 510).
// Each sample puts its own point on the outline; between it and the next one lie the corners of an event, an arc of the range circle, or a crossing of
// two edges. The samples, their directions and ties are read through their order from the work room; of the words only the last stretch is written, by the
// corners seen.
// Meanings: specs/Sweep.antt.
#![tactic(auto)]

ghost use Rattle.std.specs.Prelude.{◌≡◌, ◌-◌, ◌*◌, ◌<◌, ◌≤◌, length};
ghost use Rattle.lists.specs.Lists.{listed};
ghost use Rattle.lists.specs.Parts.{part, Only};
ghost use Rattle.num.specs.Ops.{◌⊕◌};
ghost use Rattle.geom.specs.Vec.{from_angle_of};
ghost use Rattle.room.specs.Layout.{seen_w, words_for};
ghost use Rattle.room.specs.Records.{Noted};
ghost use Rattle.outline.specs.Outline.{none, out, Pushed, owned, Room};
ghost use Rattle.credit.specs.Credit.{own_all, Raised};
ghost use Rattle.refining.specs.Refine.{further_in, env_in, run_at, Ready, Done};
ghost use Rattle.sweep.specs.Sweep.{sample_in, dir_in, tie_in, itself, Spared, is_pair, arc_point, arc_of, steps_of, emit_of, Emitted, gap_of, course_in, between_of, visit_of, next_in, with_post, begin_of, sweep_of, Walks, Swept};

use cone::View;
use geom::Vec2;
use index::AngularIndex;
use outline::{CORNER, Trace};
use refining::End;
use room::{ANGLE_EPS, Rooms, Sample};
use site::{RayHit, SiteTables};

const TAU: f64 = 6.283185307179586;

// The sample i in order of angle.
fn sample_in(k: Rooms, floats: &[f64], words: &[u32], i: u32) -> Sample
    ensures { result ≡ sample_in k floats.now words.now i }
{
    let at = room::order_w(k) + i as usize;
    room::sample_at(k, floats, words, lists::at(words, at))
}

// The direction of the sample i in order of angle.
fn dir_in(k: Rooms, floats: &[f64], words: &[u32], i: u32) -> Vec2
    ensures { result ≡ dir_in k floats.now words.now i }
{
    let at = room::order_w(k) + i as usize;
    room::dir_at(k, floats, lists::at(words, at))
}

// Is a tie noted for the sample i in order of angle?
fn tie_in(k: Rooms, words: &[u32], i: u32) -> bool
    ensures { result ≡ tie_in k words.now i }
{
    let at = room::order_w(k) + i as usize;
    room::tie_at(k, words, lists::at(words, at))
}

// The sample that follows the sample i of n: after the last one the first, a turn later, in a full circle, and none in a sector.
fn next_of(k: Rooms, floats: &[f64], words: &[u32], view: View, n: u32, i: u32) -> Option<Sample>
    requires { i < n }
    ensures { result ≡ next_in view.full (sample_in k floats.now words.now) n i }
{
    if i + 1 < n {
        return Some(sample_in(k, floats, words, i + 1));
    }
    if view.full {
        let first = sample_in(k, floats, words, 0);
        return Some(Sample {
            angle: first.angle + TAU,
            ..first
        });
    }
    None
}

// Are these the two side rays of one event?
fn is_pair(a: Sample, b: Sample) -> bool
    ensures { result ≡ is_pair a b }
{
    (a.offset == 0) & (b.offset == 2) & (b.event == a.event)
}

// The further credits of the sample i in order of angle: those beside the edge that it hit.
fn credit_further(
    k: Rooms,
    x: AngularIndex,
    floats: &[f64],
    words: &[u32],
    owners: &[u32],
    marks: &mut [u8],
    view: View,
    i: u32,
    s: Trace,
) -> Trace
    requires { Room k.owners s × (dir_in k floats.now words.now i ≡ from_angle_of (view.start ⊕ (sample_in k floats.now words.now i).angle)) }
    ensures result_after { owned marks.new result ≡ own_all k.owners owners.now (further_in k x floats.now words.now owners.now view (sample_in k floats.now words.now i).angle) marks.old s }
    ensures raised { Raised k.owners s result }
{
    let a = sample_in(k, floats, words, i);
    let dir = dir_in(k, floats, words, i);
    credit::further(
        k, x, floats, words, owners, marks, view.o, a.angle, dir, view.r, s,
    )
}

// The point and, where it hits, the owner of a sample, whose direction is `dir`.
fn emit(
    room: u32,
    owners: &[u32],
    pts: &mut [f64],
    marks: &mut [u8],
    view: View,
    a: Sample,
    dir: Vec2,
    s: Trace,
) -> Trace
    requires { (2 * s.points ≤ length pts.old) × Room room s × (dir ≡ from_angle_of (view.start ⊕ a.angle)) }
    ensures result_after { run_at pts.new marks.new result ≡ emit_of view room owners.now itself a (run_at pts.old marks.old s) }
    ensures emitted { Emitted (length pts.old) room s result }
{
    let o = view.o;
    let hit = a.hit;
    let p = refining::point_along(view, dir, hit);
    match hit {
        Some(hit) => {
            let t = outline::own(room, owners, marks, s, hit.edge);
            outline::push(pts, t, o, p, hit.edge)
        }
        None => outline::push(pts, s, o, p, CORNER),
    }
}

// The point i of an arc of so many steps.
fn arc_point(view: View, angle: f64, gap: f64, steps: u64, i: u64) -> Vec2
    ensures { result ≡ arc_point view angle gap steps i }
{
    let part = std::num::nearest_u64_to_f64(i);
    let whole = std::num::nearest_u64_to_f64(steps);
    refining::point(view, angle + gap * part / whole, None)
}

// The points inside an arc of the range circle, from one angle on.
fn arc(pts: &mut [f64], view: View, angle: f64, gap: f64, steps: u64, s: Trace) -> Trace
    requires { 2 * s.points ≤ length pts.old }
    ensures result_after { out pts.new result ≡ arc_of view angle gap steps 1 (steps - 1) (out pts.old s) }
    ensures pushed { Pushed (length pts.old) s result }
{
    let o = view.o;
    let mut t = s;
    for i in 1..steps {
        t = outline::push(pts, t, o, arc_point(view, angle, gap, steps, i), CORNER);
    }
    t
}

// How many steps an arc takes.
fn steps_of(gap: f64, step: f64) -> u64
    ensures { result ≡ steps_of gap step }
{
    num::to_u64(num::ceil(gap / step))
}

// Between two samples that are not the sides of one event: an arc, or, since no event lies there and two edges are hit, a crossing.
fn fill_gap(
    k: Rooms,
    x: AngularIndex,
    floats: &[f64],
    words: &[u32],
    tables: &SiteTables,
    pts: &mut [f64],
    marks: &mut [u8],
    view: View,
    step: f64,
    a: Sample,
    b: Sample,
    s: Trace,
) -> Trace
    requires { Ready (length pts.old) k.owners s }
    ensures result_after { run_at pts.new marks.new result ≡ gap_of (env_in k x floats.now words.now view tables.now.points.now tables.now.polygons.now tables.now.owners.now) step a b (run_at pts.old marks.old s) }
    ensures done { Done (length pts.old) k.owners s result }
{
    let gap = b.angle - a.angle;
    match (a.hit, b.hit) {
        (Some(first), Some(last)) if first.edge != last.edge && gap > 3.0 * ANGLE_EPS => {
            let from = End {
                angle: a.angle,
                edge: first.edge,
            };
            let to = End {
                angle: b.angle,
                edge: last.edge,
            };
            refining::refine(
                k, x, floats, words, tables, pts, marks, view, from, to, 0, s,
            )
        }
        (None, None) => arc(pts, view, a.angle, gap, steps_of(gap, step), s),
        _ => s,
    }
}

// Between two samples.
fn between(
    k: Rooms,
    x: AngularIndex,
    floats: &[f64],
    tables: &SiteTables,
    words: &mut [u32],
    pts: &mut [f64],
    marks: &mut [u8],
    view: View,
    step: f64,
    a: Sample,
    b: Sample,
    s: Trace,
) -> Trace
    requires { (words_for k ≤ length words.old) × Ready (length pts.old) k.owners s }
    ensures result_after { run_at pts.new marks.new result ≡ between_of (course_in k x floats.now (part 0 (seen_w k) words.old) view step tables.now.points.now tables.now.polygons.now tables.now.owners.now) a b (run_at pts.old marks.old s) }
    ensures done { Done (length pts.old) k.owners s result × Only (seen_w k) (words_for k) words.old words.new }
{
    if is_pair(a, b) {
        let before = a.hit;
        let after = b.hit;
        return seen::see_corners(
            k, floats, tables, words, pts, view, before, after, a.event, s,
        );
    }
    let w = room::seen_w(k);
    fill_gap(
        k,
        x,
        floats,
        &words[0..w],
        tables,
        pts,
        marks,
        view,
        step,
        a,
        b,
        s,
    )
}

// The sample i of n, and what lies between it and the next one. The further credits come first and only where a tie is noted, so that the samples without one, which
// are nearly all, do not pay for them.
fn visit(
    k: Rooms,
    x: AngularIndex,
    floats: &[f64],
    tables: &SiteTables,
    words: &mut [u32],
    pts: &mut [f64],
    marks: &mut [u8],
    view: View,
    step: f64,
    n: u32,
    i: u32,
    s: Trace,
) -> Trace
    requires { (i < n) × (words_for k ≤ length words.old) × Ready (length pts.old) k.owners s × Noted k view.start (Spared k x floats.now (part 0 (seen_w k) words.old) tables.now.owners.now view) floats.now (part 0 (seen_w k) words.old) n }
    ensures result_after { run_at pts.new marks.new result ≡ visit_of (course_in k x floats.now (part 0 (seen_w k) words.old) view step tables.now.points.now tables.now.polygons.now tables.now.owners.now) (sample_in k floats.now (part 0 (seen_w k) words.old) i) (next_in view.full (sample_in k floats.now (part 0 (seen_w k) words.old)) n i) (run_at pts.old marks.old s) }
    ensures done { Done (length pts.old) k.owners s result × Only (seen_w k) (words_for k) words.old words.new }
{
    let w = room::seen_w(k);
    let u = if tie_in(k, &words[0..w], i) {
        credit_further(
            k,
            x,
            floats,
            &words[0..w],
            tables.owners,
            &mut *marks,
            view,
            i,
            s,
        )
    } else {
        s
    };
    let a = sample_in(k, floats, &words[0..w], i);
    let dir = dir_in(k, floats, &words[0..w], i);
    let next = next_of(k, floats, &words[0..w], view, n, i);
    let t = emit(k.owners, tables.owners, pts, marks, view, a, dir, u);
    match next {
        Some(b) => between(k, x, floats, tables, words, pts, marks, view, step, a, b, t),
        None => t,
    }
}

// All n samples.
fn walk(
    k: Rooms,
    x: AngularIndex,
    floats: &[f64],
    tables: &SiteTables,
    words: &mut [u32],
    pts: &mut [f64],
    marks: &mut [u8],
    view: View,
    step: f64,
    n: u32,
    s: Trace,
) -> Trace
    requires { Walks k (length words.old) (length pts.old) s × Noted k view.start (Spared k x floats.now (part 0 (seen_w k) words.old) tables.now.owners.now view) floats.now (part 0 (seen_w k) words.old) n }
    ensures result_after { run_at pts.new marks.new result ≡ sweep_of (course_in k x floats.now (part 0 (seen_w k) words.old) view step tables.now.points.now tables.now.polygons.now tables.now.owners.now) (listed (sample_in k floats.now (part 0 (seen_w k) words.old)) n) (run_at pts.old marks.old s) }
    ensures swept { Swept k (length pts.old) n result × Only (seen_w k) (words_for k) words.old words.new }
{
    let mut t = s;
    for i in 0..n {
        let r = visit(k, x, floats, tables, words, pts, marks, view, step, n, i, t);
        // Field by field: copied whole, it would wait for the bytes that stand between its fields.
        t = Trace {
            points: r.points,
            owners: r.owners,
            refinements: r.refinements,
            last: r.last,
            over: r.over,
            prev: r.prev,
        };
    }
    t
}

// Where the outline begins: at the post in a sector.
fn begin(pts: &mut [f64], view: View) -> Trace
    ensures result_after { out pts.new result ≡ with_post view (out pts.old none) }
    ensures pushed { Pushed (length pts.old) none result }
{
    let o = view.o;
    if view.full {
        return outline::empty();
    }
    outline::push(pts, outline::empty(), o, o, CORNER)
}

// The outline of the n samples that stand in the work room with their directions and ties, and the marks of the polygons seen. `step` is the arc's.
pub fn sweep(
    k: Rooms,
    x: AngularIndex,
    floats: &[f64],
    tables: &SiteTables,
    words: &mut [u32],
    pts: &mut [f64],
    marks: &mut [u8],
    view: View,
    step: f64,
    n: u32,
) -> Trace
    requires { (words_for k ≤ length words.old) × Noted k view.start (Spared k x floats.now (part 0 (seen_w k) words.old) tables.now.owners.now view) floats.now (part 0 (seen_w k) words.old) n }
    ensures result_after { run_at pts.new marks.new result ≡ sweep_of (course_in k x floats.now (part 0 (seen_w k) words.old) view step tables.now.points.now tables.now.polygons.now tables.now.owners.now) (listed (sample_in k floats.now (part 0 (seen_w k) words.old)) n) (begin_of view pts.old marks.old) }
    ensures swept { Swept k (length pts.old) n result × Only (seen_w k) (words_for k) words.old words.new }
{
    let s = begin(pts, view);
    walk(k, x, floats, tables, words, pts, marks, view, step, n, s)
}
