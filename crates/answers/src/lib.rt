// Answers as plain numbers, for callers that have no enums: the C interface (crate `exports_scene`) and the probe. An answer is a status, 0 or document 01's
// number of the refusal (`refusal::status`), and its values, which are zeros where it is refused ("Each refusal carries its number and zero counts"). A head of a site is six
// floats and five numbers (specs/Head.antt). Meanings: `specs/Numbers.antt` of the crates `grid`, `build` and `scene`, whose answers they are.
#![tactic(auto)]

ghost use Rattle.std.specs.Prelude.{◌≡◌};
ghost use Rattle.grid.specs.Boxes.{box_at};
ghost use Rattle.grid.specs.Numbers.{listed_counts};
ghost use Rattle.build.specs.Numbers.{made_floats, made_counts};
ghost use Rattle.scene.specs.Numbers.{extent_value, bounds_four, dims_two, shape_place, shape_four, segment_four, number_value, found_two, look_distance, look_three, cast_distance, cast_hit, cast_edge, whose_two};
ghost use Rattle.site.specs.Tables.{tables, tables_of};
ghost use Rattle.answers.specs.Head.{site_of};

use geom::{Aabb, Vec2};
use grid::{Dims, Grid, Listing};
use refusal::Refusal;
use scene::{Polygon, Scene};
use sight::Sighting;
use site::{Ends, RayHit, Site, SiteTables};

// ---- what goes in

// The head of a site: width, height, the grid's origin, cell and its inverse; columns, rows, polygons, points, items.
pub fn site_of(head: &[f64; 6], counts: &[u32; 5]) -> Site
    ensures { result ≡ site_of head.now counts.now }
{
    Site {
        width: head[0],
        height: head[1],
        grid: Grid {
            origin: Vec2 {
                x: head[2],
                y: head[3],
            },
            cell: head[4],
            inv_cell: head[5],
            cols: counts[0],
            rows: counts[1],
        },
        polygons: counts[2],
        points: counts[3],
        items: counts[4],
    }
}

// The scene of a head and the six tables, as C hands them in.
pub fn scene_of<'a>(
    head: &[f64; 6],
    counts: &[u32; 5],
    points: &'a [f64],
    boxes: &'a [f64],
    polygons: &'a [u32],
    owners: &'a [u32],
    starts: &'a [u32],
    items: &'a [u32],
) -> Scene<'a, 'a, 'a>
    ensures site_is { result.site ≡ site_of head.now counts.now }
    ensures tables_are { tables_of result.tables ≡ tables points.now boxes.now polygons.now owners.now starts.now items.now }
{
    Scene {
        site: site_of(head, counts),
        tables: SiteTables {
            points,
            boxes,
            polygons,
            owners,
            starts,
            items,
        },
    }
}

// Four numbers in, a box: the first of a list of boxes.
pub fn box_of(b: &[f64; 4]) -> Aabb
    ensures { result ≡ box_at b.now 0 }
{
    grid::box_at(b, 0)
}

// ---- building

pub fn put_head(out: &mut [f64; 6], a: Result<Site, Refusal>)
    ensures { out.new ≡ made_floats a }
{
    *out = match a {
        Ok(s) => {
            let g = s.grid;
            let o = g.origin;
            [s.width, s.height, o.x, o.y, g.cell, g.inv_cell]
        }
        Err(_) => [0.0; 6],
    };
}

pub fn put_head_counts(out: &mut [u32; 5], a: Result<Site, Refusal>)
    ensures { out.new ≡ made_counts a }
{
    *out = match a {
        Ok(s) => {
            let g = s.grid;
            [g.cols, g.rows, s.polygons, s.points, s.items]
        }
        Err(_) => [0; 5],
    };
}

// ---- the box query: how many ids were written and how many entries read

pub fn put_counts(out: &mut [u64; 2], a: Result<Listing, Refusal>)
    ensures { out.new ≡ listed_counts a }
{
    *out = match a {
        Ok(l) => [l.written as u64, l.read as u64],
        Err(_) => [0; 2],
    };
}

// ---- the head's questions

// A width or a height.
pub fn extent_value(a: Result<f64, Refusal>) -> f64
    ensures { result ≡ extent_value a }
{
    match a {
        Ok(x) => x,
        Err(_) => 0.0,
    }
}

pub fn put_bounds(out: &mut [f64; 4], a: Result<Aabb, Refusal>)
    ensures { out.new ≡ bounds_four a }
{
    *out = match a {
        Ok(b) => {
            let lo = b.min;
            let hi = b.max;
            [lo.x, lo.y, hi.x, hi.y]
        }
        Err(_) => [0.0; 4],
    };
}

pub fn put_dims(out: &mut [u32; 2], a: Result<Dims, Refusal>)
    ensures { out.new ≡ dims_two a }
{
    *out = match a {
        Ok(d) => [d.cols, d.rows],
        Err(_) => [0; 2],
    };
}

// ---- polygons and edges

pub fn put_place(out: &mut [u32; 2], a: Result<Polygon, Refusal>)
    ensures { out.new ≡ shape_place a }
{
    *out = match a {
        Ok(p) => [p.first, p.len],
        Err(_) => [0; 2],
    };
}

pub fn put_box(out: &mut [f64; 4], a: Result<Polygon, Refusal>)
    ensures { out.new ≡ shape_four a }
{
    *out = match a {
        Ok(p) => {
            let lo = p.aabb.min;
            let hi = p.aabb.max;
            [lo.x, lo.y, hi.x, hi.y]
        }
        Err(_) => [0.0; 4],
    };
}

pub fn put_ends(out: &mut [f64; 4], s: Result<Ends, Refusal>)
    ensures { out.new ≡ segment_four s }
{
    *out = match s {
        Ok(e) => {
            let a = e.a;
            let b = e.b;
            [a.x, a.y, b.x, b.y]
        }
        Err(_) => [0.0; 4],
    };
}

// The number of a point or a polygon.
pub fn index_value(a: Result<u32, Refusal>) -> u32
    ensures { result ≡ number_value a }
{
    match a {
        Ok(i) => i,
        Err(_) => 0,
    }
}

// How many entries a part has. Not one function with the above: a `usize` becomes a `u64` by `as` alone.
pub fn count_value(a: Result<usize, Refusal>) -> u64
    ensures { result ≡ number_value a }
{
    match a {
        Ok(k) => k as u64,
        Err(_) => 0,
    }
}

// ---- a point: 1 and the id, or zeros

pub fn put_whose(out: &mut [u32; 2], a: Option<u32>)
    ensures { out.new ≡ whose_two a }
{
    *out = match a {
        Some(k) => [1, k],
        None => [0; 2],
    };
}

pub fn put_found(out: &mut [u32; 2], a: Result<Option<u32>, Refusal>)
    ensures { out.new ≡ found_two a }
{
    match a {
        Ok(w) => put_whose(out, w),
        Err(_) => *out = [0; 2],
    }
}

// ---- a cast: its distance; 1 and the edge, or zeros

pub fn distance_of(a: Option<RayHit>) -> f64
    ensures { result ≡ cast_distance a }
{
    match a {
        Some(h) => h.t,
        None => 0.0,
    }
}

pub fn hit_of(a: Option<RayHit>) -> u32
    ensures { result ≡ cast_hit a }
{
    a.is_some() as u32
}

pub fn edge_of(a: Option<RayHit>) -> u32
    ensures { result ≡ cast_edge a }
{
    match a {
        Some(h) => h.edge,
        None => 0,
    }
}

pub fn look_distance(a: Result<Sighting, Refusal>) -> f64
    ensures { result ≡ look_distance a }
{
    match a {
        Ok(s) => distance_of(s.hit),
        Err(_) => 0.0,
    }
}

// Whether there is a hit, its edge, and the cells entered.
pub fn put_look(out: &mut [u64; 3], a: Result<Sighting, Refusal>)
    ensures { out.new ≡ look_three a }
{
    *out = match a {
        Ok(s) => [hit_of(s.hit) as u64, edge_of(s.hit) as u64, s.cells as u64],
        Err(_) => [0; 3],
    };
}
