// The uniform grid over a site, its questions and the stamps: `grid.rs` of the Rust without the building of its tables (crate `tables`)
// and the ray walk (crate `walk`). The tables are lent as number lists; a visitor becomes a list writer. Document 01, "Site and grid".
// Meanings: specs/Boxes.antt (the list of boxes), specs/Range.antt (columns and cell ranges), specs/Stamps.antt, specs/Entries.antt (what the tables say), specs/Query.antt,
// specs/Numbers.antt (a query's answer as numbers).
#![tactic(auto)]

ghost use Rattle.std.specs.Prelude.{◌≡◌, suc, ◌+◌, ◌-◌, ◌^◌, ◌≤◌, ◌<◌, length, set, replicate};
ghost use Rattle.std.proofs.lemmas.List.Edits.{sets};
ghost use Rattle.num.specs.Num.{floor_of};
ghost use Rattle.grid.specs.Boxes.{box_from, box_at};
ghost use Rattle.grid.specs.Range.{dims_of, columns_of, cell_index, range_by, range_of, is_off, InGrid};
ghost use Rattle.grid.specs.Stamps.{epoch_after, marks_begun, unseen, stamped, firsts};
ghost use Rattle.grid.specs.Entries.{cell_of, entries_in, SoundGrid, RowIn, row_part, tally_of};
ghost use Rattle.grid.specs.Query.{Is, outcome, outcome_by, items_at};

use geom::{Aabb, Vec2};
use refusal::Refusal;

// The Rust's `UniformGrid` without its two tables, `starts` and `items`.
#[derive(Clone, Copy)]
pub struct Grid {
    pub origin: Vec2,
    pub cell: f64,
    pub inv_cell: f64,
    pub cols: u32,
    pub rows: u32,
}

// What `dims` answers: the Rust's pair of columns and rows.
#[derive(Clone, Copy)]
pub struct Dims {
    pub cols: u32,
    pub rows: u32,
}

// Inclusive cell index range.
#[derive(Clone, Copy)]
pub struct CellRange {
    pub c0: u32,
    pub r0: u32,
    pub c1: u32,
    pub r1: u32,
}

// How many numbers a box takes in a list of boxes.
const BOX: usize = 4;

// The box whose numbers stand from the place `at` on.
fn box_from(boxes: &[f64], at: usize) -> Aabb
    requires { at + 3 < 2 ^ 64 }
    ensures { result ≡ box_from boxes.now at }
{
    Aabb {
        min: Vec2 {
            x: lists::at(boxes, at),
            y: lists::at(boxes, at + 1),
        },
        max: Vec2 {
            x: lists::at(boxes, at + 2),
            y: lists::at(boxes, at + 3),
        },
    }
}

// The box k of a list of boxes. Past the list's end its numbers are NaN.
pub fn box_at(boxes: &[f64], k: usize) -> Aabb
    ensures { result ≡ box_at boxes.now k }
{
    if boxes.len() / BOX < k {
        return box_from(&boxes[0..0], 0);
    }
    box_from(boxes, k * BOX)
}

// How many columns cover a width, or rows a height, with cells of size `cell`. The Rust's `max(1)` changes nothing: one is added first.
// Its sum would overflow where the quotient fills a `u64`; ours stays at the largest `u64` there.
pub fn columns(extent: f64, cell: f64) -> u64
    ensures { result ≡ columns_of extent cell }
{
    let n = num::to_u64(num::floor(extent / cell));
    if n < 18446744073709551615 { n + 1 } else { n }
}

// At least one column or row, so that there is a last one. The Rust has none of zero columns; ours then says 0.
fn at_least_one(n: u32) -> u32
    ensures { result ≡ n - 1 + 1 }
{
    if n == 0 { 1 } else { n }
}

// The Rust's `y.floor().clamp(0.0, (n - 1) as f64) as usize`, by one cut (proofs/Direct.antt).
fn cell_index(y: f64, n: u32) -> u32
    requires { 0 < n }
    ensures { result ≡ cell_index (floor_of y) (n - 1) }
{
    if y >= n as f64 {
        return n - 1;
    }
    num::to_u64(y) as u32
}

// The range of the four edges, in a grid of nc columns and nr rows. The Rust compares their floors: floor(y) > n - 1 exactly if y >= n,
// and floor(y) < 0 exactly if y < 0, so no floor is worked out here.
fn held(nc: u32, nr: u32, empty: bool, c0: f64, r0: f64, c1: f64, r1: f64) -> Option<CellRange>
    requires { (0 < nc) × (0 < nr) }
    ensures { result ≡ range_by (nc - 1) (nr - 1) empty (floor_of c0) (floor_of r0) (floor_of c1) (floor_of r1) }
{
    if c1 < 0.0 {
        return None;
    }
    if r1 < 0.0 {
        return None;
    }
    if c0 >= nc as f64 {
        return None;
    }
    if r0 >= nr as f64 {
        return None;
    }
    if empty {
        return None;
    }
    Some(CellRange {
        c0: cell_index(c0, nc),
        r0: cell_index(r0, nr),
        c1: cell_index(c1, nc),
        r1: cell_index(r1, nr),
    })
}

impl Grid {
    // The numbers of columns and rows.
    pub fn dims(self) -> Dims
        ensures { result ≡ dims_of self }
    {
        Dims {
            cols: self.cols,
            rows: self.rows,
        }
    }

    // The cells that the box b covers.
    pub fn cell_range(self, b: Aabb) -> Option<CellRange>
        ensures { result ≡ range_of self b }
    {
        held(
            at_least_one(self.cols),
            at_least_one(self.rows),
            b.is_empty(),
            (b.min.x - self.origin.x) * self.inv_cell,
            (b.min.y - self.origin.y) * self.inv_cell,
            (b.max.x - self.origin.x) * self.inv_cell,
            (b.max.y - self.origin.y) * self.inv_cell,
        )
    }
}

// `Stamps::new`: zero marks, and epoch 0.
pub fn new_stamps(marks: &mut [u32], epoch: &mut u32)
    ensures epoch_after { epoch.new ≡ 0 }
    ensures marks_after { marks.new ≡ replicate (length marks.old) 0 }
{
    lists::clear(marks);
    *epoch = 0;
}

// `Stamps::next_epoch`: clears the set by starting a new epoch. Past the largest one every lent mark is cleared, and it is 1.
pub fn next_epoch(marks: &mut [u32], epoch: &mut u32)
    ensures epoch_after { epoch.new ≡ epoch_after epoch.old }
    ensures marks_after { marks.new ≡ marks_begun epoch.old marks.old }
{
    let e = *epoch;
    if e < 4294967295 {
        *epoch = e + 1;
    } else {
        lists::clear(marks);
        *epoch = 1;
    }
}

// `Stamps::mark`: marks the id, and says whether it is seen for the first time in this epoch. An id without a mark of its own counts as
// marked 0; the Rust panics there, and sound tables have none.
pub fn mark(marks: &mut [u32], epoch: u32, id: u32) -> bool
    ensures value { result ≡ unseen epoch marks.old id }
    ensures marks_after { marks.new ≡ set marks.old id epoch }
{
    let i = id as usize;
    if i < marks.len() {
        if marks[i] == epoch {
            return false;
        }
        marks[i] = epoch;
        return true;
    }
    0 != epoch
}

// The items of the cell c, as a part of the item list; none where the tables have no such part.
pub fn cell_items<'a>(starts: &[u32], items: &'a [u32], c: usize) -> &'a [u32]
    ensures { result.now ≡ cell_of starts.now items.now c }
{
    if starts.len() <= c {
        return &items[0..0];
    }
    let a = starts[c] as usize;
    let z = (lists::at(starts, c + 1) as usize).min(items.len());
    if z < a {
        return &items[0..0];
    }
    &items[a..z]
}

// Is the point p, in the column c and the row r, off a grid of nc columns and nr rows? A NaN is nowhere.
fn is_off(nc: u32, nr: u32, p: Vec2, c: f64, r: f64) -> bool
    ensures { result ≡ is_off nc nr p c r }
{
    (c < 0.0) | (r < 0.0) | (c >= nc as f64) | (r >= nr as f64) | !((p.x <= p.x) & (p.y <= p.y))
}

// The items of the cell that holds p (their boxes may not hold it), as a part of the item list. The Rust asks for the range of the box from p to p;
// it begins and ends in one cell, which is worked out once.
pub fn items_at<'a>(g: Grid, starts: &[u32], items: &'a [u32], p: Vec2) -> &'a [u32]
    ensures { result.now ≡ items_at g p starts.now items.now }
{
    let nc = at_least_one(g.cols);
    let nr = at_least_one(g.rows);
    let x = (p.x - g.origin.x) * g.inv_cell;
    let y = (p.y - g.origin.y) * g.inv_cell;
    if is_off(nc, nr, p, x, y) {
        return &items[0..0];
    }
    let c = cell_index(y, nr) as usize * g.cols as usize + cell_index(x, nc) as usize;
    cell_items(starts, items, c)
}

// How many they are.
pub fn items_at_number(g: Grid, starts: &[u32], items: &[u32], p: Vec2) -> usize
    ensures { result ≡ length (items_at g p starts.now items.now) }
{
    items_at(g, starts, items, p).len()
}

// How many ids were met first, and how many entries were read.
#[derive(Clone, Copy)]
struct Tally {
    found: usize,
    read: usize,
}

// What a list writer answers: how many ids it wrote and how many entries it read.
#[derive(Clone, Copy)]
pub struct Listing {
    pub written: usize,
    pub read: usize,
}

// Meets the ids of a part of the item list: stamps each, and writes those met first in this epoch from place n on, as far as there is
// room. Hands back the next place, room or not.
fn stamp_part(part: &[u32], marks: &mut [u32], e: u32, ids: &mut [u32], n: usize) -> usize
    requires { n + length part.now < 2 ^ 64 }
    ensures value { result ≡ n + length (firsts e marks.old part.now) }
    ensures marks_after { marks.new ≡ stamped e marks.old part.now }
    ensures ids_after { ids.new ≡ sets ids.old n (firsts e marks.old part.now) }
{
    let mut at = n;
    for id in part {
        if mark(&mut *marks, e, *id) {
            lists::put(&mut *ids, at, *id);
            at += 1;
        }
    }
    at
}

// How many numbers there are from a to z, both counted: none where z is before a.
pub fn count(a: u32, z: u32) -> usize
    ensures { result ≡ suc z - a }
{
    if a <= z { (z - a) as usize + 1 } else { 0 }
}

// Meets the entries of `width` cells from the cell `first` on. They stand side by side in the item list, so they are one part of it.
fn stamp_row(
    starts: &[u32],
    items: &[u32],
    first: usize,
    width: usize,
    marks: &mut [u32],
    e: u32,
    ids: &mut [u32],
    t: Tally,
) -> Tally
    requires row_in { RowIn starts.now items.now first width }
    requires found_le_read { (t.found ≤ t.read) × (t.read + length items.now < 2 ^ 64) }
    ensures found_value { result.found ≡ t.found + length (firsts e marks.old (row_part starts.now items.now first width)) }
    ensures read_value { result.read ≡ t.read + length (row_part starts.now items.now first width) }
    ensures marks_after { marks.new ≡ stamped e marks.old (row_part starts.now items.now first width) }
    ensures ids_after { ids.new ≡ sets ids.old t.found (firsts e marks.old (row_part starts.now items.now first width)) }
{
    let next = first + width;
    let a = starts[first] as usize;
    let z = starts[next] as usize;
    let found = stamp_part(&items[a..z], marks, e, ids, t.found);
    Tally {
        found,
        read: t.read + (z - a),
    }
}

// Meets the entries of a range of cells, row by row.
fn stamp_rows(
    g: Grid,
    starts: &[u32],
    items: &[u32],
    r: CellRange,
    marks: &mut [u32],
    e: u32,
    ids: &mut [u32],
) -> Tally
    requires sound_grid { SoundGrid g.cols g.rows starts.now items.now }
    requires in_grid { InGrid g r }
    ensures value { result ≡ tally_of e marks.old (entries_in g r starts.now items.now) }
    ensures marks_after { marks.new ≡ stamped e marks.old (entries_in g r starts.now items.now) }
    ensures ids_after { ids.new ≡ sets ids.old 0 (firsts e marks.old (entries_in g r starts.now items.now)) }
{
    let cols = g.cols as usize;
    let c0 = r.c0 as usize;
    let r0 = r.r0 as usize;
    let r1 = r.r1 as usize;
    let width = count(r.c0, r.c1);
    let mut t = Tally { found: 0, read: 0 };
    for row in r0..r1 + 1 {
        t = stamp_row(starts, items, row * cols + c0, width, marks, e, ids, t);
    }
    t
}

// The query over a range of cells. A list that is too short is counted on without writing, so the stamps end as if it were not.
fn range_query(
    g: Grid,
    starts: &[u32],
    items: &[u32],
    r: CellRange,
    marks: &mut [u32],
    epoch: &mut u32,
    ids: &mut [u32],
) -> Result<Listing, Refusal>
    requires sound_grid { SoundGrid g.cols g.rows starts.now items.now }
    requires in_grid { InGrid g r }
    ensures { Is (outcome_by g (Some r) starts.now items.now marks.old epoch.old (length ids.old))
        result marks.new epoch.new ids.new }
{
    next_epoch(marks, epoch);
    let t = stamp_rows(g, starts, items, r, marks, *epoch, ids);
    let n = t.found;
    if ids.len() < n {
        lists::clear(ids);
        return Err(Refusal::NoListRoom);
    }
    lists::clear_from(ids, n);
    Ok(Listing {
        written: n,
        read: t.read,
    })
}

// `for_each_in_aabb` as a list writer: the ids whose cells the box b covers, each once, in the order of their first meeting.
pub fn box_query(
    g: Grid,
    starts: &[u32],
    items: &[u32],
    b: Aabb,
    marks: &mut [u32],
    epoch: &mut u32,
    ids: &mut [u32],
) -> Result<Listing, Refusal>
    requires { SoundGrid g.cols g.rows starts.now items.now }
    ensures { Is (outcome g b starts.now items.now marks.old epoch.old (length ids.old))
        result marks.new epoch.new ids.new }
{
    match g.cell_range(b) {
        None => {
            lists::clear(&mut *ids);
            Ok(Listing {
                written: 0,
                read: 0,
            })
        }
        Some(r) => range_query(g, starts, items, r, marks, epoch, ids),
    }
}
