// A site as lent tables: the head by value, one accessor for each field, the tests of document 01's "Sound tables", and the tests and the
// loading of input numbers. The Rust's `Scene` without its vectors (`scene.rs`, lines 91 to 100) and its `Polygon` (lines 18 to 29).
// A table is a slice of numbers, so many of them for each entry, and may be lent longer than it is. Functions take the slices that they need
// in the order points, boxes, polygons, owners, starts, items. Every read is total: past the end a number is 0 and a float is NaN.
// Meanings: specs/Tables.antt (fields), specs/Domain.antt (input numbers), specs/Soundness.antt (sound tables).
#![tactic(auto)]

ghost use Rattle.std.specs.Prelude.{◌≡◌, ℕ, ◌+◌, ◌-◌, ◌<◌, ◌≤◌, length};
ghost use Rattle.site.specs.Tables.{tables_of, first_of, len_of, point_at, owner_at, start_at, item_at, verts_of, box_of, edge_end_of, edge_of, cells_of};
ghost use Rattle.site.specs.Domain.{point_in_domain, box_in_domain, load_of, load_point_of, load_box_of};
ghost use Rattle.site.specs.Soundness.{tables_long, counts_within, head_in_domain, points_in_domain, cell_right, same_box, boxes_right, cells_within, never_fall, starts_right, item_right, items_right, parts_inside, owned, all_owned, owns, all_own, sound_of, sound_plain};

use geom::{Aabb, Vec2};
use grid::Grid;

// How many numbers an entry has. A point: x, y. A box: min x, min y, max x, max y. A polygon: first, len.
const POINT: usize = 2;

const BOX: usize = 4;

const POLYGON: usize = 2;

// The head of a site: the Rust's `Scene` without its vectors. The last three say how much of each lent slice is the table.
#[derive(Clone, Copy)]
pub struct Site {
    pub width: f64,
    pub height: f64,
    pub grid: Grid,
    pub polygons: u32,
    pub points: u32,
    pub items: u32,
}

// What a ray hits: the distance along it, and the edge.
#[derive(Clone, Copy)]
pub struct RayHit {
    pub t: f64,
    pub edge: u32,
}

// The end points of an edge: the pair that the Rust's `edge` answers.
#[derive(Clone, Copy)]
pub struct Ends {
    pub a: Vec2,
    pub b: Vec2,
}

// The six lent tables of a site. Points and items have lifetimes of their own, since parts of them are answered.
#[derive(Clone, Copy)]
pub struct SiteTables<'a, 'points, 'items> {
    pub points: &'points [f64],
    pub boxes: &'a [f64],
    pub polygons: &'a [u32],
    pub owners: &'a [u32],
    pub starts: &'a [u32],
    pub items: &'items [u32],
}

// ---- the fields

// How many cells the grid has.
pub fn cells_of(site: Site) -> usize
    ensures { result ≡ cells_of site }
{
    site.grid.cols as usize * site.grid.rows as usize
}

// The first point of the polygon k.
pub fn first_of(polygons: &[u32], k: u32) -> u32
    ensures { result ≡ first_of polygons.now k }
{
    lists::at(polygons, POLYGON * k as usize)
}

// How many points the polygon k has.
pub fn len_of(polygons: &[u32], k: u32) -> u32
    ensures { result ≡ len_of polygons.now k }
{
    lists::at(polygons, POLYGON * k as usize + 1)
}

// The point i.
pub fn point_at(points: &[f64], i: u32) -> Vec2
    ensures { result ≡ point_at points.now i }
{
    let at = POINT * i as usize;
    Vec2 {
        x: lists::at(points, at),
        y: lists::at(points, at + 1),
    }
}

// The polygon that owns the point i, and so the edge that starts there.
pub fn owner_at(owners: &[u32], i: usize) -> u32
    ensures { result ≡ owner_at owners.now i }
{
    lists::at(owners, i)
}

// Where the items of the cell c start.
pub fn start_at(starts: &[u32], c: usize) -> u32
    ensures { result ≡ start_at starts.now c }
{
    lists::at(starts, c)
}

// The item i.
pub fn item_at(items: &[u32], i: usize) -> u32
    ensures { result ≡ item_at items.now i }
{
    lists::at(items, i)
}

// The points of the polygon k, as a part of the point list: as much of it as was lent.
pub fn verts_of<'a>(points: &'a [f64], polygons: &[u32], k: u32) -> &'a [f64]
    ensures { result.now ≡ verts_of points.now polygons.now k }
{
    let first = first_of(polygons, k) as usize;
    let len = len_of(polygons, k) as usize;
    let a = (POINT * first).min(points.len());
    let z = (POINT * (first + len)).min(points.len());
    &points[a..z]
}

// The box that the points of the polygon k give: the empty one for fewer than three.
pub fn box_of(points: &[f64], polygons: &[u32], k: u32) -> Aabb
    ensures { result ≡ box_of points.now polygons.now k }
{
    extent::polygon_box(verts_of(points, polygons, k))
}

// The point that the edge ends at; it starts at the point of its own number. The sum stays at the largest `u32` where the Rust's overflows.
pub fn edge_end(polygons: &[u32], owners: &[u32], edge: u32) -> u32
    ensures { result ≡ edge_end_of polygons.now owners.now edge }
{
    let at = edge as usize;
    let owner = owner_at(owners, at);
    let first = first_of(polygons, owner);
    let len = len_of(polygons, owner);
    if at + 1 == first as usize + len as usize {
        return first;
    }
    edge.saturating_add(1)
}

// The end points of the edge.
pub fn edge(points: &[f64], polygons: &[u32], owners: &[u32], edge: u32) -> Ends
    ensures { result ≡ edge_of points.now polygons.now owners.now edge }
{
    Ends {
        a: point_at(points, edge),
        b: point_at(points, edge_end(polygons, owners, edge)),
    }
}

// ---- input numbers

// Are both coordinates in the domain?
pub fn point_in_domain(p: Vec2) -> bool
    ensures { result ≡ point_in_domain p }
{
    bounds::in_domain(p.x) & bounds::in_domain(p.y)
}

// Are both corners in the domain?
pub fn box_in_domain(b: Aabb) -> bool
    ensures { result ≡ box_in_domain b }
{
    point_in_domain(b.min) & point_in_domain(b.max)
}

// A number as it is used: minus zero becomes plus zero.
pub fn load(x: f64) -> f64
    ensures { result ≡ load_of x }
{
    x + 0.0
}

pub fn load_point(p: Vec2) -> Vec2
    ensures { result ≡ load_point_of p }
{
    Vec2 {
        x: load(p.x),
        y: load(p.y),
    }
}

pub fn load_box(b: Aabb) -> Aabb
    ensures { result ≡ load_box_of b }
{
    Aabb {
        min: load_point(b.min),
        max: load_point(b.max),
    }
}

// ---- sound tables, line by line. The passes have no early exit, so that they have no branch but the reads'; where a failure must stop the
// work, in `all_own` and between the lines, it does.

// No slice is shorter than its table.
fn tables_long(site: Site, t: SiteTables) -> bool
    ensures { result ≡ tables_long site (tables_of t.entry) }
{
    (POINT * site.points as usize <= t.points.len())
        & (BOX * site.polygons as usize <= t.boxes.len())
        & (POLYGON * site.polygons as usize <= t.polygons.len())
        & (site.points as usize <= t.owners.len())
        & (cells_of(site) < t.starts.len())
        & (site.items as usize <= t.items.len())
}

fn counts_within(site: Site) -> bool
    ensures { result ≡ counts_within site }
{
    (site.polygons <= 4096) & (site.points <= 65536)
}

fn head_in_domain(site: Site) -> bool
    ensures { result ≡ head_in_domain site }
{
    let origin = site.grid.origin;
    bounds::in_size(site.width) & bounds::in_size(site.height) & point_in_domain(origin)
}

fn points_in_domain(n: u32, points: &[f64]) -> bool
    ensures { result ≡ points_in_domain n points.now }
{
    let mut ok = true;
    for i in 0..n {
        ok &= point_in_domain(point_at(points, i));
    }
    ok
}

// The stored inverse is compared with the division's result: one rounding.
fn cell_right(g: Grid) -> bool
    ensures { result ≡ cell_right g }
{
    (1.0 <= g.cell) & (g.cell < 1.0 / 0.0) & (g.inv_cell == 1.0 / g.cell)
}

fn same_box(a: Aabb, b: Aabb) -> bool
    ensures { result ≡ same_box a b }
{
    (a.min.x == b.min.x) & (a.min.y == b.min.y) & (a.max.x == b.max.x) & (a.max.y == b.max.y)
}

fn boxes_right(n: u32, points: &[f64], boxes: &[f64], polygons: &[u32]) -> bool
    ensures { result ≡ boxes_right n points.now boxes.now polygons.now }
{
    let mut ok = true;
    for k in 0..n {
        ok &= same_box(grid::box_at(boxes, k as usize), box_of(points, polygons, k));
    }
    ok
}

fn cells_within(site: Site) -> bool
    ensures { result ≡ cells_within site }
{
    (1 <= site.grid.cols) & (1 <= site.grid.rows) & (cells_of(site) <= 1048576)
}

// The slice is the table itself, no longer, and the loop runs without a branch.
fn never_fall(starts: &[u32]) -> bool
    ensures { result ≡ never_fall (length starts.now - 1) starts.now }
{
    let mut ok = true;
    for pair in starts.windows(2) {
        ok &= pair[0] <= pair[1];
    }
    ok
}

// `tables_long` is tested before it.
fn starts_right(site: Site, starts: &[u32]) -> bool
    requires { cells_of site < length starts.now }
    ensures { result ≡ starts_right (cells_of site) site.items starts.now }
{
    let cells = cells_of(site);
    (start_at(starts, 0) == 0)
        & never_fall(&starts[..=cells])
        & (start_at(starts, cells) == site.items)
}

fn item_right(n: u32, polygons: &[u32], k: u32) -> bool
    ensures { result ≡ item_right n polygons.now k }
{
    (k < n) & (3 <= len_of(polygons, k))
}

// `tables_long` is tested before it.
fn items_right(count: u32, n: u32, polygons: &[u32], items: &[u32]) -> bool
    requires { count ≤ length items.now }
    ensures { result ≡ items_right count n polygons.now items.now }
{
    let mut ok = true;
    for &k in &items[..count as usize] {
        ok &= item_right(n, polygons, k);
    }
    ok
}

fn parts_inside(n: u32, m: u32, polygons: &[u32]) -> bool
    ensures { result ≡ parts_inside n m polygons.now }
{
    let mut ok = true;
    for k in 0..n {
        ok &= first_of(polygons, k) as usize + len_of(polygons, k) as usize <= m as usize;
    }
    ok
}

// The owner of the point i is one of n polygons, and holds it.
fn is_owned(n: u32, polygons: &[u32], owners: &[u32], i: usize) -> bool
    ensures { result ≡ owned n polygons.now owners.now i }
{
    let k = owner_at(owners, i);
    let first = first_of(polygons, k) as usize;
    let len = len_of(polygons, k) as usize;
    (k < n) & (first <= i) & (i < first + len)
}

fn all_owned(n: u32, m: u32, polygons: &[u32], owners: &[u32]) -> bool
    ensures { result ≡ all_owned n m polygons.now owners.now }
{
    let mut ok = true;
    for i in 0..m as usize {
        ok &= is_owned(n, polygons, owners, i);
    }
    ok
}

// Does the polygon k own all its points? `parts_inside` is tested before it.
fn owns_points(polygons: &[u32], owners: &[u32], k: u32) -> bool
    requires { first_of polygons.now k + len_of polygons.now k ≤ length owners.now }
    ensures { result ≡ owns polygons.now owners.now k }
{
    let first = first_of(polygons, k) as usize;
    let end = first + len_of(polygons, k) as usize;
    let mut ok = true;
    for &owner in &owners[first..end] {
        ok &= owner == k;
    }
    ok
}

// A point has one owner, so the parts before the first failure do not overlap: no more reads than twice the points.
// A `for`, since the closure of an `all` would need a `requires` of its own.
fn all_own(n: u32, polygons: &[u32], owners: &[u32]) -> bool
    requires { (k : ℕ) → k < n → first_of polygons.now k + len_of polygons.now k ≤ length owners.now }
    ensures { result ≡ all_own n polygons.now owners.now }
{
    for k in 0..n {
        if !owns_points(polygons, owners, k) {
            return false;
        }
    }
    true
}

// Are the lent tables sound? The owners are tested before the boxes, so that the boxes' points are no more than the points.
pub fn is_sound(site: Site, t: SiteTables) -> bool
    ensures { result ≡ sound_of site (tables_of t.entry) }
{
    tables_long(site, t)
        && counts_within(site)
        && head_in_domain(site)
        && cell_right(site.grid)
        && cells_within(site)
        && points_in_domain(site.points, t.points)
        && parts_inside(site.polygons, site.points, t.polygons)
        && all_own(site.polygons, t.polygons, t.owners)
        && all_owned(site.polygons, site.points, t.polygons, t.owners)
        && boxes_right(site.polygons, t.points, t.boxes, t.polygons)
        && starts_right(site, t.starts)
        && items_right(site.items, site.polygons, t.polygons, t.items)
}

// Are points, polygons and the grid's numbers sound? The lines of document 01's "Sound tables" that speak of these alone, for calls that are lent no more (document 02,
// Q-6). Owners are not lent, so that two polygons may hold the same points.
pub fn is_sound_plain(site: Site, points: &[f64], polygons: &[u32]) -> bool
    ensures { result ≡ sound_plain site points.now polygons.now }
{
    let Site {
        polygons: n,
        points: m,
        ..
    } = site;
    POINT * m as usize <= points.len()
        && POLYGON * n as usize <= polygons.len()
        && counts_within(site)
        && point_in_domain(site.grid.origin)
        && cell_right(site.grid)
        && cells_within(site)
        && points_in_domain(m, points)
        && parts_inside(n, m, polygons)
}
