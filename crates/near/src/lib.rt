// Box answers without tables: the polygons near a box, worked out afresh from points and polygons, with no starts, items or stamps. Document 02, Q-6; the Rust has no such
// call. Each polygon's range of cells comes from its points. One number, its key, holds the first cell that it shares with the box's range and then its id. The keys are
// sorted, so that the list stands by first shared cell and then id, as the grid's list does. The entries are the cells shared, all told.
// The entry point requires nothing. It refuses as 6, 1 and 8, in this order; as 6 or 1, nothing is written.
// Meanings: specs/Shared.antt (the list), specs/Outcome.antt (the call), specs/Keys.antt (how the work is done). When it is refused: proofs/Refusing.antt. That it lists and
// counts as the grid does is said in crate `demand` (`both_engines` in proofs/DemandThree.antt).
#![tactic(auto)]

ghost use Rattle.std.specs.Prelude.{◌≡◌, ◌*◌, ◌<◌, ◌≤◌, length, take};
ghost use Rattle.tables.specs.Tables.{Limits, area_of};
ghost use Rattle.build.specs.Outcome.{span_at};
ghost use Rattle.lists.specs.Lists.{bit};
ghost use Rattle.near.specs.Shared.{meet, has_cell};
ghost use Rattle.near.specs.Outcome.{Is, outcome_in, query_of, plain_of};
ghost use Rattle.near.specs.Keys.{id_span, first_cell, key_at, ids_of, Askable, Small, SmallIn, GathersOne, Gathers};

use geom::Aabb;
use grid::{CellRange, Grid, Listing};
use refusal::Refusal;
use site::Site;

// Ids are below this.
const IDS: u32 = 4096;

// Room for a key of each polygon, and half as much again for sorting them.
const ROOM: usize = 6144;

// ---- the cells shared

// The cells that the range s and the range q share.
fn cells_shared(s: Option<CellRange>, q: CellRange) -> Option<CellRange>
    ensures { result ≡ meet s q }
{
    match s {
        None => None,
        Some(p) => Some(CellRange {
            c0: p.c0.max(q.c0),
            r0: p.r0.max(q.r0),
            c1: p.c1.min(q.c1),
            r1: p.r1.min(q.r1),
        }),
    }
}

// ---- the keys

// How many keys there are, and how many cells are shared.
#[derive(Clone, Copy)]
struct Gathered {
    found: usize,
    cells: usize,
}

// The key of the first cell of r and an id.
fn key(cols: u32, r: CellRange, id: u32) -> u32
    requires { (first_cell cols (Some r) < 1048576) × (id < id_span) }
    ensures { result ≡ key_at (first_cell cols (Some r)) id }
{
    (r.r0 * cols + r.c0) * IDS + id
}

// How many cells r has.
fn area(r: CellRange) -> usize
    requires { area_of (Some r) ≤ 1048576 }
    ensures { result ≡ area_of (Some r) }
{
    grid::count(r.c0, r.c1) * grid::count(r.r0, r.r1)
}

// 1 if r has a cell, and 0 if not: a value and not a branch, since which polygons share a cell cannot be foreseen.
fn has_cell(r: CellRange) -> usize
    ensures { result ≡ bit (has_cell (Some r)) }
{
    ((r.c0 <= r.c1) & (r.r0 <= r.r1)) as usize
}

// One polygon more, which shares the cells of r. Its key is written, and counts if there are any; if not, the next one takes its place.
fn gather_cells(cols: u32, keys: &mut [u32], t: Gathered, id: u32, r: CellRange) -> Gathered
    requires small { Small cols r × (id < id_span) }
    requires found_le_id { (t.found ≤ id) × (t.cells ≤ id * 1048576) }
    ensures { GathersOne cols (Some r) id t keys.old result keys.new }
{
    lists::put(keys, t.found, key(cols, r, id));
    Gathered {
        found: t.found + has_cell(r),
        cells: t.cells + area(r),
    }
}

// The same of a range that may be nothing.
fn gather_one(cols: u32, keys: &mut [u32], t: Gathered, id: u32, s: Option<CellRange>) -> Gathered
    requires small_in { SmallIn cols s × (id < id_span) }
    requires found_le_id { (t.found ≤ id) × (t.cells ≤ id * 1048576) }
    ensures { GathersOne cols s id t keys.old result keys.new }
{
    match s {
        None => t,
        Some(r) => gather_cells(cols, keys, t, id, r),
    }
}

// The keys of the n polygons that share a cell with the range q, by rising id, and how many cells they share.
fn gather(
    g: Grid,
    points: &[f64],
    polygons: &[u32],
    n: u32,
    q: CellRange,
    keys: &mut [u32],
) -> Gathered
    requires askable { Askable g q n }
    requires n_in_bounds { n ≤ length keys.old }
    ensures { Gathers (span_at g points.now polygons.now) g.cols q n result keys.new }
{
    let cols = g.cols;
    let mut t = Gathered { found: 0, cells: 0 };
    for id in 0..n {
        let s = cells_shared(g.cell_range(site::box_of(points, polygons, id)), q);
        t = gather_one(cols, &mut *keys, t, id, s);
    }
    t
}

// ---- the list

// Writes the ids of the first n keys.
fn write_ids(keys: &[u32], n: usize, ids: &mut [u32])
    requires { (n ≤ length keys.now) × (n ≤ length ids.old) }
    ensures { take n ids.new ≡ ids_of (take n keys.now) }
{
    for (i, key) in keys[..n].iter().enumerate() {
        ids[i] = key % IDS;
    }
}

// The query over a range of cells.
fn range_query(
    g: Grid,
    points: &[f64],
    polygons: &[u32],
    n: u32,
    q: CellRange,
    ids: &mut [u32],
) -> Result<Listing, Refusal>
    requires { Askable g q n }
    ensures { Is (outcome_in (span_at g points.now polygons.now) n g.cols (Some q) (length ids.old)) result ids.new }
{
    let mut keys = [0; ROOM];
    let t = gather(g, points, polygons, n, q, &mut keys);
    let found = t.found;
    if ids.len() < found {
        lists::clear(ids);
        return Err(Refusal::NoListRoom);
    }
    sorts::sort_numbers(&mut keys, found, 0, ROOM);
    write_ids(&keys, found, &mut *ids);
    lists::clear_from(ids, found);
    Ok(Listing {
        written: found,
        read: t.cells,
    })
}

// The query over a box of n polygons.
fn box_query(
    g: Grid,
    points: &[f64],
    polygons: &[u32],
    n: u32,
    b: Aabb,
    ids: &mut [u32],
) -> Result<Listing, Refusal>
    requires { Limits g × (n ≤ id_span) }
    ensures { Is (query_of g points.now polygons.now n b (length ids.old)) result ids.new }
{
    match g.cell_range(b) {
        None => {
            lists::clear(&mut *ids);
            Ok(Listing {
                written: 0,
                read: 0,
            })
        }
        Some(q) => range_query(g, points, polygons, n, q, ids),
    }
}

// ---- the call

// The polygons near a box, as `Scene::polygons_near` lists them, without its tables and stamps: a head with its points and polygons is enough.
pub fn polygons_near_plain(
    site: Site,
    points: &[f64],
    polygons: &[u32],
    b: Aabb,
    ids: &mut [u32],
) -> Result<Listing, Refusal>
    ensures { Is (plain_of site points.now polygons.now b ids.old) result ids.new }
{
    if !site::is_sound_plain(site, points, polygons) {
        return Err(Refusal::Unsound);
    }
    if !site::box_in_domain(b) {
        return Err(Refusal::OutsideDomain);
    }
    let g = site.grid;
    box_query(g, points, polygons, site.polygons, site::load_box(b), ids)
}
