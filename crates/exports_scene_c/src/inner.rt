// The part of the archive without the tests, for comparing and timing alone: the functions of crates/exports_scene/src/inner.rt.
ghost use Rattle.std.specs.Prelude.{◌≡◌, Ok};
ghost use Rattle.geom.specs.Vec.{vec};
ghost use Rattle.sight.specs.Holding.{polygon_at_of};
ghost use Rattle.sight.specs.Casting.{cast_ray_of};
ghost use Rattle.scene.specs.Numbers.{whose_two, look_distance, look_three};
ghost use Rattle.answers.specs.Head.{site_of};
ghost use Rattle.exports_scene.specs.Many.{held_of, hits_of};

// The polygon at a point: 1 and its id, or zeros.
#[unsafe(no_mangle)]
pub extern "C" fn bf_inner_polygon_at(
    head: &[f64; 6],
    counts: &[u32; 5],
    points: &[f64],
    boxes: &[f64],
    polygons: &[u32],
    owners: &[u32],
    starts: &[u32],
    items: &[u32],
    x: f64,
    y: f64,
    found: &mut [u32; 2],
) -> u32
    ensures value { result ≡ 0 }
    ensures found_after { found.new ≡ whose_two (polygon_at_of (site_of head.now counts.now).grid points.now boxes.now polygons.now starts.now items.now (vec x y)) }
{
    exports_scene::inner::bf_inner_polygon_at(
        head, counts, points, boxes, polygons, owners, starts, items, x, y, found,
    )
}

// A ray in a mode: its hit's distance in `t`; in `found` 1 and the edge, or zeros, and the cells entered.
#[unsafe(no_mangle)]
pub extern "C" fn bf_inner_cast_ray(
    head: &[f64; 6],
    counts: &[u32; 5],
    points: &[f64],
    boxes: &[f64],
    polygons: &[u32],
    owners: &[u32],
    starts: &[u32],
    items: &[u32],
    ox: f64,
    oy: f64,
    dx: f64,
    dy: f64,
    length: f64,
    mode: u32,
    t: &mut f64,
    found: &mut [u64; 3],
) -> u32
    ensures value { result ≡ 0 }
    ensures t_after { t.new ≡ look_distance (Ok (cast_ray_of (site_of head.now counts.now).grid points.now boxes.now polygons.now starts.now items.now (vec ox oy) (vec dx dy) length mode)) }
    ensures found_after { found.new ≡ look_three (Ok (cast_ray_of (site_of head.now counts.now).grid points.now boxes.now polygons.now starts.now items.now (vec ox oy) (vec dx dy) length mode)) }
{
    exports_scene::inner::bf_inner_cast_ray(
        head, counts, points, boxes, polygons, owners, starts, items, ox, oy, dx, dy, length, mode,
        t, found,
    )
}

// How many of the points of `asked`, x and y by turns, lie in a polygon. An odd last number is no point.
#[unsafe(no_mangle)]
pub extern "C" fn bf_inner_held(
    head: &[f64; 6],
    counts: &[u32; 5],
    points: &[f64],
    boxes: &[f64],
    polygons: &[u32],
    owners: &[u32],
    starts: &[u32],
    items: &[u32],
    asked: &[f64],
) -> u64
    ensures { result ≡ held_of (site_of head.now counts.now).grid points.now boxes.now polygons.now starts.now items.now asked.now }
{
    exports_scene::inner::bf_inner_held(
        head, counts, points, boxes, polygons, owners, starts, items, asked,
    )
}

// How many of the rays of `asked` hit: five numbers each, the origin, the direction and the length. What is left over is no ray.
#[unsafe(no_mangle)]
pub extern "C" fn bf_inner_hits(
    head: &[f64; 6],
    counts: &[u32; 5],
    points: &[f64],
    boxes: &[f64],
    polygons: &[u32],
    owners: &[u32],
    starts: &[u32],
    items: &[u32],
    asked: &[f64],
) -> u64
    ensures { result ≡ hits_of (site_of head.now counts.now).grid points.now boxes.now polygons.now starts.now items.now asked.now }
{
    exports_scene::inner::bf_inner_hits(
        head, counts, points, boxes, polygons, owners, starts, items, asked,
    )
}
