// The C interface of outlines: `compute_visibility` with numbers and slices only, and beside it the inner call without the tests, for comparing and timing alone;
// a cone's own outline, and the area of an outline. A status is 0 or document 01's number of the refusal; the numbers of an answer are zeros on refusal. The cone
// is the post's x and y, range, direction and opening angle; the entries are those of `Rooms`, in document 01's order. Meanings: specs/Numbers.antt.
#![tactic(auto)]

mod numbers;

ghost use Rattle.std.specs.Prelude.{◌≡◌};
ghost use Rattle.site.specs.Tables.{tables};
ghost use Rattle.site.specs.Soundness.{Sound};
ghost use Rattle.answers.specs.Head.{site_of};
ghost use Rattle.cone.specs.Outline.{outline_outcome};
ghost use Rattle.view.specs.Outcome.{lent, seen_from_of};
ghost use Rattle.visibility.specs.Beside.{area_of};
ghost use Rattle.visibility.specs.Outcome.{outcome};
ghost use Rattle.exports_view.specs.Numbers.{cone_of, rooms_of, Draws, Outlines};

// The outline from a post.
#[unsafe(no_mangle)]
pub extern "C" fn bf_compute_visibility(
    head: &[f64; 6],
    counts: &[u32; 5],
    points: &[f64],
    boxes: &[f64],
    polygons: &[u32],
    owners: &[u32],
    starts: &[u32],
    items: &[u32],
    cone: &[f64; 5],
    tolerance: f64,
    mode: u32,
    entries: &[u32; 9],
    marks: &mut [u32],
    epoch: &mut u32,
    floats: &mut [f64],
    words: &mut [u32],
    outline: &mut [f64],
    visible: &mut [u32],
    answer: &mut [u64; 9],
) -> u32
    ensures { Draws (outcome (site_of head.now counts.now) (tables points.now boxes.now polygons.now owners.now starts.now items.now) (cone_of cone.now) tolerance mode (rooms_of entries.now)
        (lent marks.old epoch.old floats.old words.old outline.old visible.old)) result (lent marks.new epoch.new floats.new words.new outline.new visible.new) answer.new }
{
    let a = visibility::compute_visibility(
        answers::scene_of(head, counts, points, boxes, polygons, owners, starts, items),
        numbers::cone_of(cone),
        tolerance,
        mode,
        numbers::rooms_of(entries),
        marks,
        epoch,
        floats,
        words,
        outline,
        visible,
    );
    numbers::put_shown(answer, a);
    refusal::status(a)
}

// The same on a site whose tables are sound, and a cone that is in the domain and loaded: nothing is tested but the room.
#[unsafe(no_mangle)]
pub extern "C" fn bf_inner_compute_visibility(
    head: &[f64; 6],
    counts: &[u32; 5],
    points: &[f64],
    boxes: &[f64],
    polygons: &[u32],
    owners: &[u32],
    starts: &[u32],
    items: &[u32],
    cone: &[f64; 5],
    tolerance: f64,
    mode: u32,
    entries: &[u32; 9],
    marks: &mut [u32],
    epoch: &mut u32,
    floats: &mut [f64],
    words: &mut [u32],
    outline: &mut [f64],
    visible: &mut [u32],
    answer: &mut [u64; 9],
) -> u32
    requires { Sound (site_of head.now counts.now) (tables points.now boxes.now polygons.now owners.now starts.now items.now) }
    ensures { Draws (seen_from_of (site_of head.now counts.now) (tables points.now boxes.now polygons.now owners.now starts.now items.now) (cone_of cone.now) tolerance mode (rooms_of entries.now)
        (lent marks.old epoch.old floats.old words.old outline.old visible.old)) result (lent marks.new epoch.new floats.new words.new outline.new visible.new) answer.new }
{
    let s = answers::scene_of(head, counts, points, boxes, polygons, owners, starts, items);
    let a = view::seen_from(
        s.site,
        &s.tables,
        numbers::cone_of(cone),
        tolerance,
        mode,
        numbers::rooms_of(entries),
        marks,
        epoch,
        floats,
        words,
        outline,
        visible,
    );
    numbers::put_shown(answer, a);
    refusal::status(a)
}

// The outline of a cone itself, as if nothing stood in it: how many points it has in `number`.
#[unsafe(no_mangle)]
pub extern "C" fn bf_cone_outline(
    cone: &[f64; 5],
    tolerance: f64,
    out: &mut [f64],
    number: &mut u64,
) -> u32
    ensures { Outlines (outline_outcome (cone_of cone.now) tolerance out.old) result out.new number.new }
{
    let a = numbers::cone_of(cone).outline(tolerance, out);
    *number = numbers::outline_points(a);
    refusal::status(a)
}

// The area of an outline, x and y of each point by turns.
#[unsafe(no_mangle)]
pub extern "C" fn bf_area(outline: &[f64]) -> f64
    ensures { result ≡ area_of outline.now }
{
    visibility::area(outline)
}
