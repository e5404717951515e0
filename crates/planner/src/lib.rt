// The text program's whole answer: from the bytes of its input to the bytes that it prints (document 01, "The text program"). `answer` prints
// six decimals and `answer_three` three; they are the calls from outside, and require nothing. Each reads the text, builds the site, asks the outline from
// the post, and prints it with the polygons seen; or a refusal's line alone. All tables and rooms are the call's own, of the entries that document 01 gives.
// Meanings: specs/Rooms.antt (the entries), specs/Answer.antt (the answer).
#![tactic(auto)]

ghost use Rattle.std.specs.Prelude.{◌≡◌, ◌*◌, ◌≤◌, ◌<◌, min, length};
ghost use Rattle.site.specs.Tables.{tables_of, verts_of};
ghost use Rattle.wkt_print.specs.Decimal.{Printed};
ghost use Rattle.wkt_print.specs.Lines.{points_of, polygon_text};
ghost use Rattle.planner.specs.Rooms.{rooms};
ghost use Rattle.planner.specs.Answer.{six_places, three_places, lines_of, seen_text, shown_text, planned_text, answer_of, Told, Answers, Few};

use cone::ViewCone;
use geom::Vec2;
use room::Rooms;
use scene::Scene;
use site::SiteTables;
use stages::Shown;

// The decimals of `answer`, and those of `answer_three`.
const SIX_PLACES: usize = 6;

const THREE_PLACES: usize = 3;

// The entries allowed to each work list.
fn rooms() -> Rooms
    ensures { result ≡ rooms }
{
    Rooms {
        ids: 64,
        edges: 128,
        events: 256,
        corners: 128,
        samples: 512,
        starts: 257,
        refs: 1024,
        owners: 256,
        seen: 32,
    }
}

// How many of `most` numbers n points have.
fn numbers_of(n: usize, most: usize) -> usize
    ensures { result ≡ min (2 * n) most }
{
    n.saturating_mul(2).min(most)
}

// ---- printing

// The line of the polygon k, as it is stored.
fn print_stored(
    points: &[f64],
    polygons: &[u32],
    k: u32,
    out: &mut [u8],
    at: usize,
    places: usize,
) -> usize
    requires { (length points.now ≤ 1024) × (at < 4294967296) × (places ≤ 6) }
    ensures { Printed out.old at (polygon_text places (points_of (verts_of points.now polygons.now k))) out.new result }
{
    wkt_print::print_polygon(out, at, site::verts_of(points, polygons, k), places)
}

// A line for each polygon seen, rising by id.
fn print_visible(
    points: &[f64],
    polygons: &[u32],
    ids: &[u32],
    out: &mut [u8],
    at: usize,
    places: usize,
) -> usize
    requires { Few places points.now ids.now at }
    ensures { Printed out.old at (lines_of places points.now polygons.now ids.now) out.new result }
{
    let mut j = at;
    for id in ids {
        j = print_stored(points, polygons, *id, out, j, places);
    }
    j
}

// The outline's points, and the polygons seen.
fn print_seen(
    shown: Shown,
    points: &[f64],
    polygons: &[u32],
    outline: &[f64],
    visible: &[u32],
    out: &mut [u8],
    places: usize,
) -> usize
    requires { (length points.now ≤ 1024) × (length outline.now ≤ 4096) × (length visible.now ≤ 64) × (places ≤ 6) }
    ensures { Printed out.old 0 (seen_text places shown.points shown.visible points.now polygons.now outline.now visible.now) out.new result }
{
    let e = numbers_of(shown.points, outline.len());
    let k = shown.visible.min(visible.len());
    // `0..` written out, as `part` has it in the contract: with `..e` the proof does not close. So in `print_answer`.
    let at = wkt_print::print_polygon(out, 0, &outline[0..e], places);
    print_visible(points, polygons, &visible[0..k], out, at, places)
}

// ---- the outline

// What is seen from the post (x, y) on a site, all around.
fn print_view(scene: Scene, x: f64, y: f64, range: f64, out: &mut [u8], places: usize) -> usize
    requires { (length (tables_of scene.tables).points ≤ 1024) × (places ≤ 6) }
    ensures { Told places out.old (shown_text places scene.entry.site (tables_of scene.entry.tables) x y range) out.new result }
{
    let mut marks = [0u32; 64];
    let mut epoch: u32 = 0;
    let mut floats = [0.0; 3456];
    let mut words = [0u32; 6881];
    let mut outline = [0.0; 4096];
    let mut visible = [0u32; 64];
    let cone = ViewCone::full(Vec2 { x, y }, range);
    match visibility::compute_visibility(
        scene,
        cone,
        0.1,
        0,
        rooms(),
        &mut marks,
        &mut epoch,
        &mut floats,
        &mut words,
        &mut outline,
        &mut visible,
    ) {
        Ok(shown) => print_seen(
            shown,
            scene.tables.points,
            scene.tables.polygons,
            &outline,
            &visible,
            out,
            places,
        ),
        Err(refusal) => wkt_print::print_refused(out, 0, u32::from(refusal)),
    }
}

// ---- the site

// What is seen from the post (x, y) among the polygons given.
fn print_plan(
    x: f64,
    y: f64,
    range: f64,
    given: &[f64],
    lens: &[u32],
    out: &mut [u8],
    places: usize,
) -> usize
    requires { places ≤ 6 }
    ensures { Told places out.old (planned_text places x y range given.now lens.now) out.new result }
{
    let mut points = [0.0; 1024];
    let mut boxes = [0.0; 256];
    let mut polygons = [0u32; 128];
    let mut owners = [0u32; 512];
    let mut starts = [0u32; 2049];
    let mut items = [0u32; 4096];
    match build::new(
        0.0,
        0.0,
        given,
        lens,
        &mut points,
        &mut boxes,
        &mut polygons,
        &mut owners,
        &mut starts,
        &mut items,
    ) {
        Ok(site) => {
            let tables = SiteTables {
                points: &points,
                boxes: &boxes,
                polygons: &polygons,
                owners: &owners,
                starts: &starts,
                items: &items,
            };
            print_view(Scene { site, tables }, x, y, range, out, places)
        }
        Err(refusal) => wkt_print::print_refused(out, 0, u32::from(refusal)),
    }
}

// ---- the text

// The answer printed, and what lies behind it left as it was.
fn print_answer(text: &[u8], out: &mut [u8], places: usize) -> usize
    requires { places ≤ 6 }
    ensures { Told places out.old (answer_of places text.now) out.new result }
{
    let mut pts = [0.0; 1024];
    let mut lens = [0u32; 64];
    match wkt::read_input(text, &mut pts, &mut lens) {
        Ok(input) => print_plan(
            input.x,
            input.y,
            input.range,
            &pts[0..2 * input.points],
            &lens[0..input.polygons],
            out,
            places,
        ),
        Err(refusal) => wkt_print::print_refused(out, 0, u32::from(refusal)),
    }
}

// The answer to a text: as much of it as `out` has room for, and zeros behind it. How long it is, is answered.
fn answer_with(text: &[u8], out: &mut [u8], places: usize) -> usize
    requires { places ≤ 6 }
    ensures { Answers places text.now out.old result out.new }
{
    let r = print_answer(text, &mut *out, places);
    lists::clear_from(out, r);
    r
}

// The answer with six decimals.
pub fn answer(text: &[u8], out: &mut [u8]) -> usize
    ensures { Answers six_places text.now out.old result out.new }
{
    answer_with(text, out, SIX_PLACES)
}

// The answer with three decimals, each number rounded from the float itself. Texts are read by the same rules.
pub fn answer_three(text: &[u8], out: &mut [u8]) -> usize
    ensures { Answers three_places text.now out.old result out.new }
{
    answer_with(text, out, THREE_PLACES)
}
