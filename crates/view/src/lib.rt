// What a post sees, over tables that are sound: what the post comes to, the box query, the stages over the candidates, and the zeroing. All that `compute_visibility`
// (`visibility.rs`, lines 246 to 518) does, but for the tests of what is lent, which are crate `visibility`. The query runs also where the room is short, so that
// the stamps end as without the refusal. Afterwards the work room is zero, and so is the rest of each output list.
// Meanings: specs/Post.antt (what the post comes to), specs/Outcome.antt (the outcome).
#![tactic(auto)]

ghost use Rattle.std.specs.Prelude.{◌≡◌, ◌*◌, ◌≤◌, length};
ghost use Rattle.site.specs.Tables.{tables_of};
ghost use Rattle.site.specs.Soundness.{Sound};
ghost use Rattle.grid.specs.Entries as entries;
ghost use Rattle.stages.specs.Drawing.{request};
ghost use Rattle.stages.specs.Shows.{points_in, ids_in, Shows};
ghost use Rattle.view.specs.Post.{is_empty, plan_of};
ghost use Rattle.view.specs.Outcome.{lent, out, look_of, Looked, Drawable, drawn_of, Cleared, seen_from_of};

use cone::{View, ViewCone};
use geom::Aabb;
use grid::{Grid, Listing};
use refusal::Refusal;
use room::Rooms;
use site::{Site, SiteTables};
use stages::Shown;

// What a post comes to before its stages: nothing is seen, it stands inside a polygon, or the polygons near a box are looked at.
#[derive(Clone, Copy)]
pub enum Plan {
    Empty,
    Inside,
    Query(Aabb),
}

// ---- the post

// Is there nothing to see?
fn is_empty(view: View) -> bool
    ensures { result ≡ is_empty view }
{
    num::is_nan(view.r) | (view.r <= 0.0) | (view.fov <= 1e-9)
}

// What the post comes to.
fn plan_of(g: Grid, tables: &SiteTables, cone: ViewCone) -> Plan
    ensures { result ≡ plan_of g tables.now.points.now tables.now.boxes.now tables.now.polygons.now tables.now.starts.now tables.now.items.now cone }
{
    let o = cone.origin;
    if is_empty(cone::view_of(cone)) {
        return Plan::Empty;
    }
    match sight::polygon_at(g, tables, o) {
        Some(_) => Plan::Inside,
        None => Plan::Query(cone.aabb()),
    }
}

// The box query where the plan has one, in front of the words.
fn look(
    p: Plan,
    g: Grid,
    tables: &SiteTables,
    room: usize,
    marks: &mut [u32],
    epoch: &mut u32,
    words: &mut [u32],
) -> Result<Listing, Refusal>
    requires { entries.SoundGrid g.cols g.rows tables.now.starts.now tables.now.items.now × (room ≤ length words.old) }
    ensures { Looked (look_of p g tables.now.starts.now tables.now.items.now marks.old epoch.old room) result marks.new epoch.new words.new }
{
    match p {
        Plan::Query(b) => grid::box_query(
            g,
            tables.starts,
            tables.items,
            b,
            marks,
            epoch,
            &mut words[0..room],
        ),
        Plan::Empty | Plan::Inside => Ok(Listing {
            written: 0,
            read: 0,
        }),
    }
}
// ---- the answer

// What the plan comes to, once the query has answered.
fn drawn(
    short: bool,
    p: Plan,
    a: Result<Listing, Refusal>,
    k: Rooms,
    cone: ViewCone,
    tolerance: f64,
    tables: &SiteTables,
    floats: &mut [f64],
    words: &mut [u32],
    outline: &mut [f64],
    visible: &mut [u32],
    mode: u32,
) -> Result<Shown, Refusal>
    requires { Drawable short k tables.now.polygons.now a floats.old words.old }
    ensures { Shows (drawn_of short p (request k tables.now.points.now tables.now.polygons.now tables.now.owners.now cone tolerance mode (length outline.old) (length visible.old))
        tables.now.boxes.now a words.old) result outline.new visible.new }
{
    if short {
        return Err(Refusal::NoListRoom);
    }
    match p {
        Plan::Empty => stages::plain(false, cone.is_full()),
        Plan::Inside => stages::plain(true, cone.is_full()),
        Plan::Query(_) => match a {
            Err(_) => Err(Refusal::NoListRoom),
            Ok(Listing { written, read: _ }) => stages::staged(
                k, cone, tolerance, written, tables, floats, words, outline, visible, mode,
            ),
        },
    }
}

// How many points an answer has.
fn points_in(a: Result<Shown, Refusal>) -> usize
    ensures { result ≡ points_in a }
{
    match a {
        Ok(s) => s.points,
        Err(_) => 0,
    }
}

// How many ids.
fn ids_in(a: Result<Shown, Refusal>) -> usize
    ensures { result ≡ ids_in a }
{
    match a {
        Ok(s) => s.visible,
        Err(_) => 0,
    }
}

// All work room zero, and each output list zero behind its entries.
fn clear(
    a: Result<Shown, Refusal>,
    floats: &mut [f64],
    words: &mut [u32],
    outline: &mut [f64],
    visible: &mut [u32],
)
    requires { 2 * points_in a ≤ length outline.old }
    ensures { Cleared a floats.old words.old outline.old visible.old floats.new words.new outline.new visible.new }
{
    lists::clear(floats);
    lists::clear(words);
    lists::clear_from(outline, 2 * points_in(a));
    lists::clear_from(visible, ids_in(a));
}

// The outline of a loaded cone over tables that are sound, with a mark for each polygon: everything that the call does after its tests.
pub fn seen_from(
    site: Site,
    tables: &SiteTables,
    cone: ViewCone,
    tolerance: f64,
    mode: u32,
    k: Rooms,
    marks: &mut [u32],
    epoch: &mut u32,
    floats: &mut [f64],
    words: &mut [u32],
    outline: &mut [f64],
    visible: &mut [u32],
) -> Result<Shown, Refusal>
    requires { Sound site (tables_of tables.now) }
    ensures { out result (lent marks.new epoch.new floats.new words.new outline.new visible.new)
        ≡ seen_from_of site (tables_of tables.now) cone tolerance mode k
        (lent marks.old epoch.old floats.old words.old outline.old visible.old) }
{
    let g = site.grid;
    let short = room::is_short(k, floats.len(), words.len());
    let room = (k.ids as usize).min(words.len());
    let p = plan_of(g, tables, cone);
    let ids = look(p, g, tables, room, marks, epoch, &mut *words);
    let a = drawn(
        short,
        p,
        ids,
        k,
        cone,
        tolerance,
        tables,
        &mut *floats,
        &mut *words,
        &mut *outline,
        &mut *visible,
        mode,
    );
    clear(a, floats, words, outline, visible);
    a
}
