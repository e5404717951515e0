// Building a site into lent tables: `Scene::new` of the Rust's `scene.rs` (lines 103 to 155) with the refusals of document 01. All of it is
// decided before the first write (`decide`), so that a refusal leaves every table as it was; then the tables are written, one after the other.
// Meanings: specs/Stored.antt (what is stored), specs/Refusals.antt (when it refuses), specs/Outcome.antt (answer and tables), specs/Numbers.antt (the answer as
// numbers). That a site so made is sound is proofs/BuiltSound.antt; that it refuses exactly when document 01 says is proofs/RefusedWhen.antt.
#![tactic(auto)]

ghost use Rattle.std.specs.Prelude.{◌≡◌, ◌+◌, ◌*◌, ◌<◌, ◌≤◌, length};
ghost use Rattle.std.proofs.lemmas.List.Edits.{sets};
ghost use Rattle.lists.specs.Lists.{joined, listed};
ghost use Rattle.lists.specs.Parts.{padded};
ghost use Rattle.num.specs.Ops.{zero_f};
ghost use Rattle.geom.specs.Box.{corner_of, from_points_of};
ghost use Rattle.geom.specs.Ring.{signed_area_of};
ghost use Rattle.extent.specs.Boxes.{polygon_box_of};
ghost use Rattle.extent.specs.Extent.{bounds_of, sides_of};
ghost use Rattle.tables.specs.Tables.{Limits, items_of, cell_start};
ghost use Rattle.site.specs.Domain.{load_point_of};
ghost use Rattle.site.specs.Tables.{tables, point_at, box_of};
ghost use Rattle.build.specs.Stored.{given_at, is_reversed, ordered_at, stored_at, stored_boxes, points_of, box_numbers, polygons_table, owners_table, first_in, grid_of};
ghost use Rattle.build.specs.Refusals.{too_many, adds_up, numbers_in, all_inside, few_cells, item_count, has_room, Counted, Held};
ghost use Rattle.build.specs.Outcome.{span_at, Indexable, plan_by, plan_of, outcome, Does};

use extent::Sides;
use geom::{Aabb, Vec2};
use grid::Grid;
use refusal::Refusal;
use site::Site;

// The lengths of the six lent tables.
#[derive(Clone, Copy)]
struct Rooms {
    pub points: usize,
    pub boxes: usize,
    pub polygons: usize,
    pub owners: usize,
    pub starts: usize,
    pub items: usize,
}

// ---- the tests on what is given

// Refusal 2: more polygons or points than a site may have.
fn too_many(given: &[f64], lens: &[u32]) -> bool
    ensures { result ≡ too_many given.now lens.now }
{
    (lens.len() > 4096) | (given.len() / 2 > 65536)
}

// The sum of the polygons' lengths.
fn sum_of(lens: &[u32]) -> usize
    requires { length lens.now ≤ 4096 }
    ensures { (result ≡ first_in lens.now (length lens.now)) × (result ≤ 4096 * 4294967295) }
{
    lens.iter().map(|&len| len as usize).sum()
}

// Refusal 3 where it fails: the lengths add up to the points given.
fn adds_up(given: &[f64], lens: &[u32]) -> bool
    requires { length lens.now ≤ 4096 }
    ensures { result ≡ adds_up given.now lens.now }
{
    2 * sum_of(lens) == given.len()
}

// Are all numbers given in the domain? No early exit: no branch but the loop's.
fn numbers_in(given: &[f64]) -> bool
    ensures { result ≡ numbers_in given.now }
{
    let mut ok = true;
    for &x in given {
        ok &= bounds::in_domain(x);
    }
    ok
}

// Refusal 1 where it fails.
fn all_inside(width: f64, height: f64, given: &[f64]) -> bool
    ensures { result ≡ all_inside width height given.now }
{
    bounds::in_size(width) & bounds::in_size(height) & numbers_in(given)
}

// ---- a polygon as it is stored: len points from `first` on

// The point i of those given, loaded.
fn given_point(given: &[f64], i: usize) -> Vec2
    requires { 2 * i < length given.now }
    ensures { result ≡ load_point_of (point_at given.now i) }
{
    let at = 2 * i;
    Vec2 {
        x: site::load(lists::at(given, at)),
        y: site::load(lists::at(given, at + 1)),
    }
}

// The signed area of the points as they are given: the Rust's `signed_area` of the loaded ones.
fn area_of(given: &[f64], first: usize, len: usize) -> f64
    requires { Held given.now first len }
    ensures { result ≡ signed_area_of (given_at given.now first len) }
{
    let mut s = 0.0;
    for i in 0..len {
        let a = given_point(given, first + i);
        let b = given_point(given, first + (i + 1) % len);
        s += a.cross(b);
    }
    0.5 * s
}

// Is the polygon stored in reversed order?
fn is_reversed(given: &[f64], first: usize, len: usize) -> bool
    requires { Held given.now first len }
    ensures { result ≡ is_reversed given.now first len }
{
    area_of(given, first, len) < 0.0
}

// The point i of the polygon in its order.
fn ordered_point(given: &[f64], first: usize, len: usize, reversed: bool, i: usize) -> Vec2
    requires { Held given.now first len × (i < len) }
    ensures { result ≡ corner_of (ordered_at reversed given.now first len) i }
{
    let at = if reversed { len - 1 - i } else { i };
    given_point(given, first + at)
}

// The smallest box around the points, in their order.
fn box_around(given: &[f64], first: usize, len: usize, reversed: bool) -> Aabb
    requires { Held given.now first len }
    ensures { result ≡ from_points_of (ordered_at reversed given.now first len) }
{
    let mut b = Aabb::empty();
    for i in 0..len {
        b = b.include(ordered_point(given, first, len, reversed, i));
    }
    b
}

// The box of the polygon as stored: the empty one for fewer than three points.
fn stored_box(given: &[f64], first: usize, len: usize) -> Aabb
    requires { Held given.now first len }
    ensures { result ≡ polygon_box_of (stored_at given.now first len) }
{
    if len < 3 {
        return Aabb::empty();
    }
    box_around(given, first, len, is_reversed(given, first, len))
}

// ---- the grid

// What the size of the cells is worked out from.
#[derive(Clone, Copy)]
struct Measured {
    pub bounds: Aabb,
    pub sides: Sides,
}

// The bounds of the site and the larger sides of its boxes. Width and height are loaded.
fn measure(width: f64, height: f64, given: &[f64], lens: &[u32]) -> Measured
    requires { Counted given.now lens.now }
    ensures { (result.bounds ≡ bounds_of width height (stored_boxes given.now lens.now)) × (result.sides ≡ sides_of (stored_boxes given.now lens.now)) }
{
    let mut bounds = Aabb {
        min: Vec2 { x: 0.0, y: 0.0 },
        max: Vec2 {
            x: width,
            y: height,
        },
    };
    let mut sides = Sides { sum: 0.0, count: 0 };
    let mut first: usize = 0;
    for &len in lens {
        let len = len as usize;
        let b = stored_box(given, first, len);
        bounds = extent::join_box(bounds, b);
        sides = extent::add_side(sides, b);
        first += len;
    }
    Measured { bounds, sides }
}

// Refusal 4 where it fails. The factors are tested first, so that the product fits.
fn few_cells(cols: u64, rows: u64) -> bool
    requires { (0 < cols) × (0 < rows) }
    ensures { result ≡ few_cells cols rows }
{
    cols <= 1048576 && rows <= 1048576 && cols * rows <= 1048576
}

// How many items the grid has: the cells that the boxes cover.
fn item_count(g: Grid, given: &[f64], lens: &[u32]) -> usize
    requires { Limits g × Counted given.now lens.now }
    ensures { result ≡ item_count g given.now lens.now }
{
    let mut n: usize = 0;
    let mut first: usize = 0;
    for &len in lens {
        let len = len as usize;
        n += tables::cell_count(g, stored_box(given, first, len));
        first += len;
    }
    n
}

// Refusal 5 where it fails: each table has room for what it is to hold.
fn has_room(room: Rooms, polygons: usize, points: usize, cells: usize, items: usize) -> bool
    requires { (polygons ≤ 4096) × (points ≤ 65536) }
    ensures { result ≡ has_room room polygons points cells items }
{
    (2 * points <= room.points)
        & (4 * polygons <= room.boxes)
        & (2 * polygons <= room.polygons)
        & (points <= room.owners)
        & (cells < room.starts)
        & (items <= room.items)
        & (items <= 4294967295)
}

// ---- the decision

// The test of the room, once the grid is known.
fn fit(
    width: f64,
    height: f64,
    g: Grid,
    given: &[f64],
    lens: &[u32],
    room: Rooms,
) -> Result<Site, Refusal>
    requires { Limits g × Counted given.now lens.now }
    ensures { result ≡ plan_by width height g given.now lens.now room }
{
    let n = item_count(g, given, lens);
    let cells = g.cols as usize * g.rows as usize;
    if !has_room(room, lens.len(), given.len() / 2, cells, n) {
        return Err(Refusal::NoTableRoom);
    }
    Ok(Site {
        width: site::load(width),
        height: site::load(height),
        grid: g,
        polygons: lens.len() as u32,
        points: (given.len() / 2) as u32,
        items: n as u32,
    })
}

// The grid, and the tests of the cells and of the room.
fn lay_grid(
    width: f64,
    height: f64,
    given: &[f64],
    lens: &[u32],
    room: Rooms,
) -> Result<Site, Refusal>
    requires { Counted given.now lens.now }
    ensures { result ≡ plan_by width height (grid_of width height given.now lens.now) given.now lens.now room }
{
    let Measured { bounds, sides } = measure(site::load(width), site::load(height), given, lens);
    let cell = extent::cell_from(sides, bounds);
    let cols = grid::columns(bounds.width(), cell);
    let rows = grid::columns(bounds.height(), cell);
    if !few_cells(cols, rows) {
        return Err(Refusal::TooManyCells);
    }
    let g = Grid {
        origin: bounds.min,
        cell,
        inv_cell: 1.0 / cell,
        cols: cols as u32,
        rows: rows as u32,
    };
    fit(width, height, g, given, lens, room)
}

// Everything that can be refused, in document 01's order: 2, 3, 1, 4, 5.
fn decide(
    width: f64,
    height: f64,
    given: &[f64],
    lens: &[u32],
    room: Rooms,
) -> Result<Site, Refusal>
    ensures { result ≡ plan_of width height given.now lens.now room }
{
    if too_many(given, lens) {
        return Err(Refusal::TooMany);
    }
    if !adds_up(given, lens) {
        return Err(Refusal::LengthsDiffer);
    }
    if !all_inside(width, height, given) {
        return Err(Refusal::OutsideDomain);
    }
    lay_grid(width, height, given, lens, room)
}

// ---- the tables

// Writes a polygon's points, in its order, to its place.
fn write_ordered(points: &mut [f64], given: &[f64], first: usize, len: usize, reversed: bool)
    requires { Held given.now first len }
    ensures { points.new ≡ sets points.old (2 * first) (ordered_at reversed given.now first len) }
{
    for i in 0..len {
        let p = ordered_point(given, first, len, reversed, i);
        let at = 2 * (first + i);
        lists::put(points, at, p.x);
        lists::put(points, at + 1, p.y);
    }
}

// Writes the points of all polygons, and zeros after them.
fn write_points(points: &mut [f64], given: &[f64], lens: &[u32])
    requires { Counted given.now lens.now × (length given.now ≤ length points.old) }
    ensures { points.new ≡ padded zero_f (length points.old) (points_of given.now lens.now) }
{
    let mut first: usize = 0;
    for &len in lens {
        let len = len as usize;
        let reversed = is_reversed(given, first, len);
        write_ordered(points, given, first, len, reversed);
        first += len;
    }
    lists::clear_from(points, given.len());
}

// Writes where each polygon's points start and how many they are, and zeros after them.
fn write_polygons(polygons: &mut [u32], lens: &[u32])
    requires { (first_in lens.now (length lens.now) ≤ 65536) × (2 * length lens.now ≤ length polygons.old) }
    ensures { polygons.new ≡ padded 0 (length polygons.old) (polygons_table lens.now) }
{
    let mut first: u32 = 0;
    for (k, &len) in lens.iter().enumerate() {
        lists::put(polygons, 2 * k, first);
        lists::put(polygons, 2 * k + 1, len);
        first += len;
    }
    lists::clear_from(polygons, 2 * lens.len());
}

// Writes each point's owner, and zeros after them.
fn write_owners(owners: &mut [u32], lens: &[u32])
    requires { (length lens.now ≤ 4096) × (first_in lens.now (length lens.now) ≤ length owners.old) }
    ensures { owners.new ≡ padded 0 (length owners.old) (owners_table lens.now) }
{
    let mut first: usize = 0;
    for (k, &len) in lens.iter().enumerate() {
        let end = first + len as usize;
        owners[first..end].fill(k as u32);
        first = end;
    }
    lists::clear_from(owners, first);
}

// Points, polygons and owners: the Rust's loop over the polygons without their boxes.
fn lay_out(
    given: &[f64],
    lens: &[u32],
    points: &mut [f64],
    polygons: &mut [u32],
    owners: &mut [u32],
)
    requires { Counted given.now lens.now × (length given.now ≤ length points.old) × (2 * length lens.now ≤ length polygons.old) × (first_in lens.now (length lens.now) ≤ length owners.old) }
    ensures points_after { points.new ≡ padded zero_f (length points.old) (points_of given.now lens.now) }
    ensures polygons_after { polygons.new ≡ padded 0 (length polygons.old) (polygons_table lens.now) }
    ensures owners_after { owners.new ≡ padded 0 (length owners.old) (owners_table lens.now) }
{
    write_points(points, given, lens);
    write_polygons(polygons, lens);
    write_owners(owners, lens);
}

// Writes the box of the polygon k.
fn put_box(boxes: &mut [f64], k: u32, b: Aabb)
    ensures { boxes.new ≡ sets boxes.old (4 * k) (box_numbers b) }
{
    let at = 4 * k as usize;
    lists::put(boxes, at, b.min.x);
    lists::put(boxes, at + 1, b.min.y);
    lists::put(boxes, at + 2, b.max.x);
    lists::put(boxes, at + 3, b.max.y);
}

// Writes the boxes that the stored points give, and zeros after them.
fn write_boxes(boxes: &mut [f64], points: &[f64], polygons: &[u32], n: u32)
    requires { 4 * n ≤ length boxes.old }
    ensures { boxes.new ≡ padded zero_f (length boxes.old) (joined (λ k. box_numbers (box_of points.now polygons.now k)) n) }
{
    for k in 0..n {
        put_box(boxes, k, site::box_of(points, polygons, k));
    }
    lists::clear_from(boxes, 4 * n as usize);
}

// The boxes of the stored points, and the grid's starts and items.
fn index(
    g: Grid,
    points: &[f64],
    polygons: &[u32],
    n: u32,
    boxes: &mut [f64],
    starts: &mut [u32],
    items: &mut [u32],
)
    requires { Indexable g points.now polygons.now n (length boxes.old) (length starts.old) (length items.old) }
    ensures boxes_after { boxes.new ≡ padded zero_f (length boxes.old) (joined (λ k. box_numbers (box_of points.now polygons.now k)) n) }
    ensures starts_after { starts.new ≡ padded 0 (length starts.old) (listed (cell_start (span_at g points.now polygons.now) n g.cols) (g.cols * g.rows + 1)) }
    ensures after { items.new ≡ padded 0 (length items.old) (items_of (span_at g points.now polygons.now) n g.cols (g.cols * g.rows)) }
{
    write_boxes(boxes, points, polygons, n);
    tables::fill(g, boxes, n as usize, starts, items);
}

// Builds a site from its width, its height, the numbers of all points (x, y, polygon after polygon) and the polygons' lengths. The head is
// answered; the tables are left in the lent slices, and zeros after them. Refusals: 2, 3, 1, 4, 5, in this order.
pub fn new(
    width: f64,
    height: f64,
    given: &[f64],
    lens: &[u32],
    points: &mut [f64],
    boxes: &mut [f64],
    polygons: &mut [u32],
    owners: &mut [u32],
    starts: &mut [u32],
    items: &mut [u32],
) -> Result<Site, Refusal>
    ensures { Does (outcome width height given.now lens.now (tables points.old boxes.old polygons.old owners.old starts.old items.old)) result
        (tables points.new boxes.new polygons.new owners.new starts.new items.new) }
{
    let room = Rooms {
        points: points.len(),
        boxes: boxes.len(),
        polygons: polygons.len(),
        owners: owners.len(),
        starts: starts.len(),
        items: items.len(),
    };
    let site = decide(width, height, given, lens, room)?;
    lay_out(given, lens, points, polygons, owners);
    index(
        site.grid,
        points,
        polygons,
        site.polygons,
        boxes,
        starts,
        items,
    );
    Ok(site)
}
