// Questions without the tests of the tables and of the domain, for comparing and timing alone: what an answer costs beside its tests. They are no part
// of the interface for users. Every content of every slice is allowed. `bf_inner_polygon_at` and `bf_inner_cast_ray` ask one question, and their status is
// always 0. `bf_inner_held` and `bf_inner_hits` ask many in one call, so that the C call is not timed with each: they count. Meanings: specs/Many.antt.
// Questions that only read are in src/reads.rt.
ghost use Rattle.std.specs.Prelude.{◌≡◌, ◌<◌, Ok};
ghost use Rattle.geom.specs.Vec.{vec};
ghost use Rattle.geom.specs.Box.{corners};
ghost use Rattle.sight.specs.Holding.{polygon_at_of};
ghost use Rattle.sight.specs.Casting.{cast_ray_of};
ghost use Rattle.scene.specs.Numbers.{whose_two, look_distance, look_three};
ghost use Rattle.answers.specs.Head.{site_of};
ghost use Rattle.exports_scene.specs.Many.{held_at, held_of, rays_in, hit_at, hits_of};

use geom::Vec2;
use grid::Grid;
use site::SiteTables;

// The polygon at a point: 1 and its id, or zeros.
#[unsafe(no_mangle)]
pub extern "C" fn bf_inner_polygon_at(
    head: &[f64; 6],
    counts: &[u32; 5],
    points: &[f64],
    boxes: &[f64],
    polygons: &[u32],
    owners: &[u32],
    starts: &[u32],
    items: &[u32],
    x: f64,
    y: f64,
    found: &mut [u32; 2],
) -> u32
    ensures value { result ≡ 0 }
    ensures found_after { found.new ≡ whose_two (polygon_at_of (site_of head.now counts.now).grid points.now boxes.now polygons.now starts.now items.now (vec x y)) }
{
    let s = answers::scene_of(head, counts, points, boxes, polygons, owners, starts, items);
    let p = Vec2 { x, y };
    answers::put_whose(found, sight::polygon_at(s.site.grid, &s.tables, p));
    0
}

// A ray in a mode: its hit's distance in `t`; in `found` 1 and the edge, or zeros, and the cells entered.
#[unsafe(no_mangle)]
pub extern "C" fn bf_inner_cast_ray(
    head: &[f64; 6],
    counts: &[u32; 5],
    points: &[f64],
    boxes: &[f64],
    polygons: &[u32],
    owners: &[u32],
    starts: &[u32],
    items: &[u32],
    ox: f64,
    oy: f64,
    dx: f64,
    dy: f64,
    length: f64,
    mode: u32,
    t: &mut f64,
    found: &mut [u64; 3],
) -> u32
    ensures value { result ≡ 0 }
    ensures t_after { t.new ≡ look_distance (Ok (cast_ray_of (site_of head.now counts.now).grid points.now boxes.now polygons.now starts.now items.now (vec ox oy) (vec dx dy) length mode)) }
    ensures found_after { found.new ≡ look_three (Ok (cast_ray_of (site_of head.now counts.now).grid points.now boxes.now polygons.now starts.now items.now (vec ox oy) (vec dx dy) length mode)) }
{
    let s = answers::scene_of(head, counts, points, boxes, polygons, owners, starts, items);
    let a = Ok(sight::cast_ray(
        s.site.grid,
        &s.tables,
        Vec2 { x: ox, y: oy },
        Vec2 { x: dx, y: dy },
        length,
        mode,
    ));
    *t = answers::look_distance(a);
    answers::put_look(found, a);
    0
}

// ---- many questions in one call

// 1 where the point i lies in a polygon, else 0.
fn held_at(g: Grid, tables: &SiteTables, asked: &[f64], i: usize) -> u64
    requires { i < corners asked.now }
    ensures { result ≡ held_at g tables.now.points.now tables.now.boxes.now tables.now.polygons.now tables.now.starts.now tables.now.items.now asked.now i }
{
    let p = geom::corner(asked, i);
    sight::polygon_at(g, tables, p).is_some() as u64
}

// How many of the points lie in a polygon.
fn held(g: Grid, tables: &SiteTables, asked: &[f64]) -> u64
    ensures { result ≡ held_of g tables.now.points.now tables.now.boxes.now tables.now.polygons.now tables.now.starts.now tables.now.items.now asked.now }
{
    let mut n = 0;
    for i in 0..asked.len() / 2 {
        n += held_at(g, tables, asked, i);
    }
    n
}

// 1 where the ray i hits, else 0: by the Rust's rule, as the same rays hit in every mode.
fn hit_at(g: Grid, tables: &SiteTables, asked: &[f64], i: usize) -> u64
    requires { i < rays_in asked.now }
    ensures { result ≡ hit_at g tables.now.points.now tables.now.boxes.now tables.now.polygons.now tables.now.starts.now tables.now.items.now asked.now i }
{
    let seen = sight::cast_ray(
        g,
        tables,
        Vec2 {
            x: asked[5 * i],
            y: asked[5 * i + 1],
        },
        Vec2 {
            x: asked[5 * i + 2],
            y: asked[5 * i + 3],
        },
        asked[5 * i + 4],
        0,
    );
    answers::hit_of(seen.hit) as u64
}

// How many of the rays hit.
fn hits(g: Grid, tables: &SiteTables, asked: &[f64]) -> u64
    ensures { result ≡ hits_of g tables.now.points.now tables.now.boxes.now tables.now.polygons.now tables.now.starts.now tables.now.items.now asked.now }
{
    let mut n = 0;
    for i in 0..asked.len() / 5 {
        n += hit_at(g, tables, asked, i);
    }
    n
}

// How many of the points of `asked`, x and y by turns, lie in a polygon. An odd last number is no point.
#[unsafe(no_mangle)]
pub extern "C" fn bf_inner_held(
    head: &[f64; 6],
    counts: &[u32; 5],
    points: &[f64],
    boxes: &[f64],
    polygons: &[u32],
    owners: &[u32],
    starts: &[u32],
    items: &[u32],
    asked: &[f64],
) -> u64
    ensures { result ≡ held_of (site_of head.now counts.now).grid points.now boxes.now polygons.now starts.now items.now asked.now }
{
    let s = answers::scene_of(head, counts, points, boxes, polygons, owners, starts, items);
    held(s.site.grid, &s.tables, asked)
}

// How many of the rays of `asked` hit: five numbers each, the origin, the direction and the length. What is left over is no ray.
#[unsafe(no_mangle)]
pub extern "C" fn bf_inner_hits(
    head: &[f64; 6],
    counts: &[u32; 5],
    points: &[f64],
    boxes: &[f64],
    polygons: &[u32],
    owners: &[u32],
    starts: &[u32],
    items: &[u32],
    asked: &[f64],
) -> u64
    ensures { result ≡ hits_of (site_of head.now counts.now).grid points.now boxes.now polygons.now starts.now items.now asked.now }
{
    let s = answers::scene_of(head, counts, points, boxes, polygons, owners, starts, items);
    hits(s.site.grid, &s.tables, asked)
}
