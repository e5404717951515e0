// What a point and a ray meet on a site: the Rust's `polygon_at`, `cast_ray` and `ray_hits_aabb` (`scene.rs`, lines 292 to 363), over lent tables.
// Nothing here tests the tables: the entry points are in crate `scene`. Each public function takes whatever it is lent: a read past a table's end gives the default.
// Meanings: specs/Slabs.antt (the box test), specs/Holding.antt (`polygon_at`), specs/Casting.antt (`cast_ray`).
// The mode of a ray is document 02's, Q-3: 0 the Rust's rule, any other the lowest edge of those that are tested and met at exactly the same distance.
#![tactic(auto)]

ghost use Rattle.std.specs.Prelude.{◌≡◌};
ghost use mathlib.Core.List.{foldl};
ghost use Rattle.lists.specs.Lists.{filter};
ghost use Rattle.lists.specs.Members.{holds};
ghost use Rattle.walk.specs.Steps.{OnGrid};
ghost use Rattle.walk.specs.Tours.{tour};
ghost use Rattle.sight.specs.Slabs.{ray_hits_aabb_of};
ghost use Rattle.sight.specs.Holding.{holds_point, higher_of, with_id, highest, polygon_at_of};
ghost use Rattle.sight.specs.Casting.{ray_of, edge_number, level_of, nearer_of, edges_met, recent_none, pushed, item_seen, items_seen, looker, look_first, sighting_of, cast_ray_of};

use geom::{Aabb, Vec2};
use grid::Grid;
use site::{RayHit, SiteTables};
use walk::{Course, Place};

// ---- the box test

// Slab test for the part of the ray with t from 0 to `t_max`. `inv` holds 1 / d for each axis. A NaN, where the ray lies on a slab's face, is passed over by
// `min` and `max`, and what is left of it fails both tests, so that the box counts as hit.
fn ray_hits_aabb(o: Vec2, inv: Vec2, b: Aabb, t_max: f64) -> bool
    ensures { result ≡ ray_hits_aabb_of o inv b t_max }
{
    let tx1 = (b.min.x - o.x) * inv.x;
    let tx2 = (b.max.x - o.x) * inv.x;
    let ty1 = (b.min.y - o.y) * inv.y;
    let ty2 = (b.max.y - o.y) * inv.y;
    let t_near = num::max(num::min(tx1, tx2), num::min(ty1, ty2));
    let t_far = num::min(num::max(tx1, tx2), num::max(ty1, ty2));
    !((t_far < num::max(t_near, 0.0)) | (t_near > t_max))
}

// ---- the polygon at a point

// Do the polygon's box and its points hold p?
fn holds_point(tables: &SiteTables, p: Vec2, id: u32) -> bool
    ensures { result ≡ holds_point tables.now.points.now tables.now.boxes.now tables.now.polygons.now p id }
{
    grid::box_at(tables.boxes, id as usize).contains(p)
        && geom::point_in_polygon(p, site::verts_of(tables.points, tables.polygons, id))
}

// The higher of an id found before and one more.
fn higher(w: Option<u32>, id: u32) -> Option<u32>
    ensures { result ≡ higher_of w id }
{
    match w {
        Some(k) => Some(k.max(id)),
        None => Some(id),
    }
}

// One id more, if its polygon holds p.
fn with_id(tables: &SiteTables, p: Vec2, w: Option<u32>, id: u32) -> Option<u32>
    ensures { result ≡ with_id tables.now.points.now tables.now.boxes.now tables.now.polygons.now p w id }
{
    if holds_point(tables, p, id) {
        return higher(w, id);
    }
    w
}

// The highest of the ids whose polygon holds p.
fn highest_of(tables: &SiteTables, ids: &[u32], p: Vec2) -> Option<u32>
    ensures { result ≡ highest (filter (holds_point tables.now.points.now tables.now.boxes.now tables.now.polygons.now p) ids.now) }
{
    let mut w = None;
    for id in ids {
        w = with_id(tables, p, w, *id);
    }
    w
}

// The top-most polygon that holds p: the highest id in the point's cell.
pub fn polygon_at(g: Grid, tables: &SiteTables, p: Vec2) -> Option<u32>
    ensures { result ≡ polygon_at_of g tables.now.points.now tables.now.boxes.now tables.now.polygons.now tables.now.starts.now tables.now.items.now p }
{
    highest_of(tables, grid::items_at(g, tables.starts, tables.items, p), p)
}

// ---- a ray

// A ray: where it starts, its direction, and 1 / d for each axis.
#[derive(Clone, Copy)]
struct Ray {
    o: Vec2,
    d: Vec2,
    inv: Vec2,
}

// The nearest hit so far: the Rust's `best_t`, the ray's length while there is none, and the hit itself.
#[derive(Clone, Copy)]
struct Best {
    t: f64,
    hit: Option<RayHit>,
}

// The Rust's tiny mailbox, `recent` and `slot`: the ids of the last eight polygons tested, and how many places of it were filled last.
#[derive(Clone, Copy)]
struct Recent {
    ids: [u32; 8],
    slot: usize,
}

// What the walk carries from polygon to polygon.
#[derive(Clone, Copy)]
struct Look {
    best: Best,
    recent: Recent,
}

// What a cast answers: the nearest hit, and how many cells the walk entered.
#[derive(Clone, Copy)]
pub struct Sighting {
    pub hit: Option<RayHit>,
    pub cells: usize,
}

// The number of the edge that starts at the point i of a polygon. Sound tables have no edge of the largest number, where it would stop.
fn edge_number(first: u32, i: usize) -> u32
    ensures { result ≡ edge_number first i }
{
    if i < (4294967295 - first) as usize {
        return first + i as u32;
    }
    4294967295
}

// The edge e is met at exactly the distance of the nearest hit: in mode 0 the edge found first stays, in any other the lower number, once there is a hit.
// By a choice of two numbers: where the mode was tested first, the compiler made a loop of its own for mode 0, which divides twice for edges that once will do for.
fn level(best: Best, e: u32, mode: u32) -> Best
    ensures { result ≡ level_of mode best e }
{
    match best.hit {
        Some(hit) if mode != 0 => Best {
            hit: Some(RayHit {
                edge: e.min(hit.edge),
                ..hit
            }),
            ..best
        },
        _ => best,
    }
}

// The nearest hit after one edge more, which starts at the point i of a polygon. The mode is looked at only where two distances are equal.
fn nearer(best: Best, met: Option<f64>, first: u32, i: usize, mode: u32) -> Best
    ensures { result ≡ nearer_of mode best met (edge_number first i) }
{
    match met {
        Some(t) if t < best.t => Best {
            t,
            hit: Some(RayHit {
                t,
                edge: edge_number(first, i),
            }),
        },
        Some(t) if t == best.t => level(best, edge_number(first, i), mode),
        _ => best,
    }
}

// The edges of a polygon, the closing edge first. `prev` is the point where the edge starts that ends at the point k.
fn test_edges(ray: Ray, ring: &[f64], first: u32, start: Best, mode: u32) -> Best
    ensures { result ≡ edges_met (nearer_of mode) ray ring.now first start }
{
    let n = ring.len() / 2;
    if n == 0 {
        return start;
    }
    let mut best = start;
    let mut prev = n - 1;
    let mut a = geom::corner(ring, prev);
    for k in 0..n {
        let b = geom::corner(ring, k);
        best = nearer(
            best,
            geom::ray_segment(ray.o, ray.d, a, b),
            first,
            prev,
            mode,
        );
        prev = k;
        a = b;
    }
    best
}

impl Recent {
    fn none() -> Recent
        ensures { result ≡ recent_none }
    {
        Recent {
            ids: [4294967295; 8],
            slot: 0,
        }
    }

    // The Rust's `recent.contains(&id)`.
    fn has(self, id: u32) -> bool
        ensures { result ≡ holds id self.ids }
    {
        self.ids.contains(&id)
    }

    fn push(mut self, id: u32) -> Recent
        ensures { result ≡ pushed self id }
    {
        let at = self.slot % 8;
        self.ids[at] = id;
        self.slot = at + 1;
        self
    }
}

// One polygon of a cell: passed over if it was tested lately. The mailbox is filled before the box is tested.
fn test_item(ray: Ray, tables: &SiteTables, s: Look, id: u32, mode: u32) -> Look
    ensures { result ≡ item_seen (nearer_of mode) ray tables.now.points.now tables.now.boxes.now tables.now.polygons.now s id }
{
    let recent = s.recent;
    if recent.has(id) {
        return s;
    }
    let best = s.best;
    let filled = recent.push(id);
    if !ray_hits_aabb(
        ray.o,
        ray.inv,
        grid::box_at(tables.boxes, id as usize),
        best.t,
    ) {
        return Look {
            best,
            recent: filled,
        };
    }
    let nearest = test_edges(
        ray,
        site::verts_of(tables.points, tables.polygons, id),
        site::first_of(tables.polygons, id),
        best,
        mode,
    );
    Look {
        best: nearest,
        recent: filled,
    }
}

// The polygons of a cell, in the order of its ids.
fn test_items(ray: Ray, tables: &SiteTables, ids: &[u32], start: Look, mode: u32) -> Look
    ensures { result ≡ items_seen (nearer_of mode) ray tables.now.points.now tables.now.boxes.now tables.now.polygons.now start ids.now }
{
    let mut s = start;
    for id in ids {
        s = test_item(ray, tables, s, *id, mode);
    }
    s
}

// The walk from the place `start` on: nearest cells first, until the nearest hit lies in the walked part. The hit is copied out only where it is answered: a copy for
// each cell costs time.
fn look_along(
    ray: Ray,
    tables: &SiteTables,
    k: Course,
    start: Place,
    first: Look,
    mode: u32,
) -> Sighting
    requires { OnGrid k start }
    ensures { result ≡ sighting_of (tour (looker (nearer_of mode) ray tables.now.points.now tables.now.boxes.now tables.now.polygons.now tables.now.starts.now tables.now.items.now) k start first) }
{
    let mut s = first;
    let mut p = start;
    let mut cells: usize = 0;
    loop {
        let ids = grid::cell_items(tables.starts, tables.items, walk::cell_of(k, p));
        s = test_items(ray, tables, ids, s, mode);
        cells += 1;
        if !(s.best.t > walk::exit_of(k, p)) {
            return Sighting {
                hit: s.best.hit,
                cells,
            };
        }
        match walk::advance(k, p) {
            Some(q) => p = q,
            None => {
                return Sighting {
                    hit: s.best.hit,
                    cells,
                };
            }
        }
    }
}

// The nearest edge that the ray `o + t * d`, t up to `length`, hits, found by walking the cells along the ray. Of several at that distance the mode decides.
pub fn cast_ray(g: Grid, tables: &SiteTables, o: Vec2, d: Vec2, length: f64, mode: u32) -> Sighting
    ensures { result ≡ cast_ray_of g tables.now.points.now tables.now.boxes.now tables.now.polygons.now tables.now.starts.now tables.now.items.now o d length mode }
{
    let ray = Ray {
        o,
        d,
        inv: Vec2 {
            x: 1.0 / d.x,
            y: 1.0 / d.y,
        },
    };
    let recent = Recent::none();
    let first = Look {
        best: Best {
            t: length,
            hit: None,
        },
        recent,
    };
    match walk::traverse_ray(g, o, d, length) {
        Some((k, p)) => look_along(ray, tables, k, p, first, mode),
        None => Sighting {
            hit: None,
            cells: 0,
        },
    }
}
