// The C interface of sites: building and every question, numbers and slices only. Each function is one call of the library under it and has its promise, in
// the numbers that `grid`, `build` and `scene` give their answers: it returns a status, 0 or document 01's number of the refusal, and leaves its values in the last parameters, zeros on
// refusal. A site is six floats (width, height, the grid's origin, cell and its inverse), five numbers (columns, rows, polygons, points, items) and the six
// tables. In C a slice is a pointer and a length, and an array is a pointer.
#![tactic(auto)]

pub mod inner;
pub mod reads;

ghost use Rattle.refusal.specs.Numbers.{status_of};
ghost use Rattle.std.specs.Prelude.{◌≡◌, get_or};
ghost use Rattle.std.specs.Float.{nan};
ghost use Rattle.lists.specs.Lists.{bit};
ghost use Rattle.geom.specs.Vec.{vec};
ghost use Rattle.grid.specs.Boxes.{box_at};
ghost use Rattle.site.specs.Tables.{tables};
ghost use Rattle.site.specs.Soundness.{sound_of};
ghost use Rattle.build.specs.Outcome.{outcome};
ghost use Rattle.random.specs.Outcome as drawing;
ghost use Rattle.scene.specs.Answers.{width_of, height_of, bounds_of, dims_of, polygon_of, polygon_vertices_of, polygon_vertices_number_of, edge_of, edge_end_of, edge_owner_of, items_at_of, items_at_number_of, polygon_at_of, cast_ray_of};
ghost use Rattle.scene.specs.Stamping.{polygons_near_of, new_stamps_of};
ghost use Rattle.grid.specs.Numbers.{Lists};
ghost use Rattle.near.specs.Outcome.{plain_of};
ghost use Rattle.near.specs.Numbers as plain;
ghost use Rattle.scene.specs.Numbers.{extent_value, bounds_four, dims_two, shape_place, shape_four, segment_four, number_value, found_two, look_distance, look_three};
ghost use Rattle.answers.specs.Head.{site_of};
ghost use Rattle.answers.specs.Outcomes.{Anew, Builds};
ghost use Rattle.exports_scene.specs.Settings.{config_of};

use geom::Vec2;
use random::SceneConfig;

// Are the tables sound? 1 or 0.
#[unsafe(no_mangle)]
pub extern "C" fn bf_scene_is_sound(
    head: &[f64; 6],
    counts: &[u32; 5],
    points: &[f64],
    boxes: &[f64],
    polygons: &[u32],
    owners: &[u32],
    starts: &[u32],
    items: &[u32],
) -> u32
    ensures { result ≡ bit (sound_of (site_of head.now counts.now) (tables points.now boxes.now polygons.now owners.now starts.now items.now)) }
{
    let s = answers::scene_of(head, counts, points, boxes, polygons, owners, starts, items);
    site::is_sound(s.site, s.tables) as u32
}

// The box query: ids written and entries read in `tally`.
#[unsafe(no_mangle)]
pub extern "C" fn bf_scene_polygons_near(
    head: &[f64; 6],
    counts: &[u32; 5],
    points: &[f64],
    boxes: &[f64],
    polygons: &[u32],
    owners: &[u32],
    starts: &[u32],
    items: &[u32],
    b: &[f64; 4],
    marks: &mut [u32],
    epoch: &mut u32,
    ids: &mut [u32],
    tally: &mut [u64; 2],
) -> u32
    ensures { Lists (polygons_near_of (site_of head.now counts.now) (tables points.now boxes.now polygons.now owners.now starts.now items.now)
        (box_at b.now 0) marks.old epoch.old ids.old) result marks.new epoch.new ids.new tally.new }
{
    let a = answers::scene_of(
        head, counts, points, boxes, polygons, owners, starts, items,
    ).polygons_near(answers::box_of(b), marks, epoch, ids);
    answers::put_counts(tally, a);
    refusal::status(a)
}

// The box query worked out from points and polygons alone: ids written and entries counted in `tally`. Width and height of the head, and the number of items, are
// not read.
#[unsafe(no_mangle)]
pub extern "C" fn bf_scene_polygons_near_plain(
    head: &[f64; 6],
    counts: &[u32; 5],
    points: &[f64],
    polygons: &[u32],
    b: &[f64; 4],
    ids: &mut [u32],
    tally: &mut [u64; 2],
) -> u32
    ensures { plain.Lists (plain_of (site_of head.now counts.now) points.now polygons.now (box_at b.now 0) ids.old)
        result ids.new tally.new }
{
    let a = near::polygons_near_plain(
        answers::site_of(head, counts),
        points,
        polygons,
        answers::box_of(b),
        ids,
    );
    answers::put_counts(tally, a);
    refusal::status(a)
}

// How many ids the cell of a point has.
#[unsafe(no_mangle)]
pub extern "C" fn bf_scene_items_at_number(
    head: &[f64; 6],
    counts: &[u32; 5],
    points: &[f64],
    boxes: &[f64],
    polygons: &[u32],
    owners: &[u32],
    starts: &[u32],
    items: &[u32],
    x: f64,
    y: f64,
    number: &mut u64,
) -> u32
    ensures value { result ≡ status_of (items_at_number_of (site_of head.now counts.now) (tables points.now boxes.now polygons.now owners.now starts.now items.now) (vec x y)) }
    ensures number_after { number.new ≡ number_value (items_at_number_of (site_of head.now counts.now) (tables points.now boxes.now polygons.now owners.now starts.now items.now) (vec x y)) }
{
    let a = answers::scene_of(
        head, counts, points, boxes, polygons, owners, starts, items,
    ).items_at_number(Vec2 { x, y });
    *number = answers::count_value(a);
    refusal::status(a)
}

// The i-th of them; 0 past the last and on refusal.
#[unsafe(no_mangle)]
pub extern "C" fn bf_scene_item_at(
    head: &[f64; 6],
    counts: &[u32; 5],
    points: &[f64],
    boxes: &[f64],
    polygons: &[u32],
    owners: &[u32],
    starts: &[u32],
    items: &[u32],
    x: f64,
    y: f64,
    i: usize,
) -> u32
    ensures { result ≡ get_or (items_at_of (site_of head.now counts.now) (tables points.now boxes.now polygons.now owners.now starts.now items.now) (vec x y)) i 0 }
{
    lists::at(
        answers::scene_of(head, counts, points, boxes, polygons, owners, starts, items).items_at(
            Vec2 { x, y },
        ),
        i,
    )
}

// The polygon at a point: 1 and its id, or zeros.
#[unsafe(no_mangle)]
pub extern "C" fn bf_scene_polygon_at(
    head: &[f64; 6],
    counts: &[u32; 5],
    points: &[f64],
    boxes: &[f64],
    polygons: &[u32],
    owners: &[u32],
    starts: &[u32],
    items: &[u32],
    x: f64,
    y: f64,
    found: &mut [u32; 2],
) -> u32
    ensures value { result ≡ status_of (polygon_at_of (site_of head.now counts.now) (tables points.now boxes.now polygons.now owners.now starts.now items.now) (vec x y)) }
    ensures found_after { found.new ≡ found_two (polygon_at_of (site_of head.now counts.now) (tables points.now boxes.now polygons.now owners.now starts.now items.now) (vec x y)) }
{
    let a = answers::scene_of(
        head, counts, points, boxes, polygons, owners, starts, items,
    ).polygon_at(Vec2 { x, y });
    answers::put_found(found, a);
    refusal::status(a)
}

// A ray, in mode 0 by the Rust's rule, in mode 1 to the lowest of the edges at one distance: its hit's distance in `t`; in `found` 1 and the edge, or zeros, and the cells
// entered.
#[unsafe(no_mangle)]
pub extern "C" fn bf_scene_cast_ray(
    head: &[f64; 6],
    counts: &[u32; 5],
    points: &[f64],
    boxes: &[f64],
    polygons: &[u32],
    owners: &[u32],
    starts: &[u32],
    items: &[u32],
    ox: f64,
    oy: f64,
    dx: f64,
    dy: f64,
    length: f64,
    mode: u32,
    t: &mut f64,
    found: &mut [u64; 3],
) -> u32
    ensures value { result ≡ status_of (cast_ray_of (site_of head.now counts.now) (tables points.now boxes.now polygons.now owners.now starts.now items.now) (vec ox oy) (vec dx dy) length mode) }
    ensures t_after { t.new ≡ look_distance (cast_ray_of (site_of head.now counts.now) (tables points.now boxes.now polygons.now owners.now starts.now items.now) (vec ox oy) (vec dx dy) length mode) }
    ensures found_after { found.new ≡ look_three (cast_ray_of (site_of head.now counts.now) (tables points.now boxes.now polygons.now owners.now starts.now items.now) (vec ox oy) (vec dx dy) length mode) }
{
    let a = answers::scene_of(
        head, counts, points, boxes, polygons, owners, starts, items,
    ).cast_ray(Vec2 { x: ox, y: oy }, Vec2 { x: dx, y: dy }, length, mode);
    *t = answers::look_distance(a);
    answers::put_look(found, a);
    refusal::status(a)
}

// The ends of an edge.
#[unsafe(no_mangle)]
pub extern "C" fn bf_scene_edge(
    head: &[f64; 6],
    counts: &[u32; 5],
    points: &[f64],
    boxes: &[f64],
    polygons: &[u32],
    owners: &[u32],
    starts: &[u32],
    items: &[u32],
    edge: u32,
    ends: &mut [f64; 4],
) -> u32
    ensures value { result ≡ status_of (edge_of (site_of head.now counts.now) (tables points.now boxes.now polygons.now owners.now starts.now items.now) edge) }
    ensures ends_after { ends.new ≡ segment_four (edge_of (site_of head.now counts.now) (tables points.now boxes.now polygons.now owners.now starts.now items.now) edge) }
{
    let a = answers::scene_of(head, counts, points, boxes, polygons, owners, starts, items).edge(
        edge,
    );
    answers::put_ends(ends, a);
    refusal::status(a)
}

// The number of the point where an edge ends.
#[unsafe(no_mangle)]
pub extern "C" fn bf_scene_edge_end(
    head: &[f64; 6],
    counts: &[u32; 5],
    points: &[f64],
    boxes: &[f64],
    polygons: &[u32],
    owners: &[u32],
    starts: &[u32],
    items: &[u32],
    edge: u32,
    end: &mut u32,
) -> u32
    ensures value { result ≡ status_of (edge_end_of (site_of head.now counts.now) (tables points.now boxes.now polygons.now owners.now starts.now items.now) edge) }
    ensures end_after { end.new ≡ number_value (edge_end_of (site_of head.now counts.now) (tables points.now boxes.now polygons.now owners.now starts.now items.now) edge) }
{
    let a = answers::scene_of(
        head, counts, points, boxes, polygons, owners, starts, items,
    ).edge_end(edge);
    *end = answers::index_value(a);
    refusal::status(a)
}

// The polygon that owns an edge.
#[unsafe(no_mangle)]
pub extern "C" fn bf_scene_edge_owner(
    head: &[f64; 6],
    counts: &[u32; 5],
    points: &[f64],
    boxes: &[f64],
    polygons: &[u32],
    owners: &[u32],
    starts: &[u32],
    items: &[u32],
    edge: u32,
    owner: &mut u32,
) -> u32
    ensures value { result ≡ status_of (edge_owner_of (site_of head.now counts.now) (tables points.now boxes.now polygons.now owners.now starts.now items.now) edge) }
    ensures owner_after { owner.new ≡ number_value (edge_owner_of (site_of head.now counts.now) (tables points.now boxes.now polygons.now owners.now starts.now items.now) edge) }
{
    let a = answers::scene_of(
        head, counts, points, boxes, polygons, owners, starts, items,
    ).edge_owner(edge);
    *owner = answers::index_value(a);
    refusal::status(a)
}

// A polygon: its first point and their number, and its box.
#[unsafe(no_mangle)]
pub extern "C" fn bf_scene_polygon(
    head: &[f64; 6],
    counts: &[u32; 5],
    points: &[f64],
    boxes: &[f64],
    polygons: &[u32],
    owners: &[u32],
    starts: &[u32],
    items: &[u32],
    id: u32,
    place: &mut [u32; 2],
    b: &mut [f64; 4],
) -> u32
    ensures value { result ≡ status_of (polygon_of (site_of head.now counts.now) (tables points.now boxes.now polygons.now owners.now starts.now items.now) id) }
    ensures place_after { place.new ≡ shape_place (polygon_of (site_of head.now counts.now) (tables points.now boxes.now polygons.now owners.now starts.now items.now) id) }
    ensures b_after { b.new ≡ shape_four (polygon_of (site_of head.now counts.now) (tables points.now boxes.now polygons.now owners.now starts.now items.now) id) }
{
    let a = answers::scene_of(head, counts, points, boxes, polygons, owners, starts, items).polygon(
        id,
    );
    answers::put_place(place, a);
    answers::put_box(b, a);
    refusal::status(a)
}

// How many points a polygon has.
#[unsafe(no_mangle)]
pub extern "C" fn bf_scene_polygon_vertices_number(
    head: &[f64; 6],
    counts: &[u32; 5],
    points: &[f64],
    boxes: &[f64],
    polygons: &[u32],
    owners: &[u32],
    starts: &[u32],
    items: &[u32],
    id: u32,
    number: &mut u64,
) -> u32
    ensures value { result ≡ status_of (polygon_vertices_number_of (site_of head.now counts.now) (tables points.now boxes.now polygons.now owners.now starts.now items.now) id) }
    ensures number_after { number.new ≡ number_value (polygon_vertices_number_of (site_of head.now counts.now) (tables points.now boxes.now polygons.now owners.now starts.now items.now) id) }
{
    let a = answers::scene_of(
        head, counts, points, boxes, polygons, owners, starts, items,
    ).polygon_vertices_number(id);
    *number = answers::count_value(a);
    refusal::status(a)
}

// The i-th number of a polygon's points, x and y by turns; NaN past the last and on refusal.
#[unsafe(no_mangle)]
pub extern "C" fn bf_scene_polygon_vertex(
    head: &[f64; 6],
    counts: &[u32; 5],
    points: &[f64],
    boxes: &[f64],
    polygons: &[u32],
    owners: &[u32],
    starts: &[u32],
    items: &[u32],
    id: u32,
    i: usize,
) -> f64
    ensures { result ≡ get_or (polygon_vertices_of (site_of head.now counts.now) (tables points.now boxes.now polygons.now owners.now starts.now items.now) id) i nan }
{
    lists::at(
        answers::scene_of(
            head, counts, points, boxes, polygons, owners, starts, items,
        ).polygon_vertices(id),
        i,
    )
}

// The bounds: four numbers.
#[unsafe(no_mangle)]
pub extern "C" fn bf_scene_bounds(
    head: &[f64; 6],
    counts: &[u32; 5],
    points: &[f64],
    boxes: &[f64],
    polygons: &[u32],
    owners: &[u32],
    starts: &[u32],
    items: &[u32],
    b: &mut [f64; 4],
) -> u32
    ensures value { result ≡ status_of (bounds_of (site_of head.now counts.now) (tables points.now boxes.now polygons.now owners.now starts.now items.now)) }
    ensures b_after { b.new ≡ bounds_four (bounds_of (site_of head.now counts.now) (tables points.now boxes.now polygons.now owners.now starts.now items.now)) }
{
    let a = answers::scene_of(
        head, counts, points, boxes, polygons, owners, starts, items,
    ).bounds();
    answers::put_bounds(b, a);
    refusal::status(a)
}

// The width.
#[unsafe(no_mangle)]
pub extern "C" fn bf_scene_width(
    head: &[f64; 6],
    counts: &[u32; 5],
    points: &[f64],
    boxes: &[f64],
    polygons: &[u32],
    owners: &[u32],
    starts: &[u32],
    items: &[u32],
    width: &mut f64,
) -> u32
    ensures value { result ≡ status_of (width_of (site_of head.now counts.now) (tables points.now boxes.now polygons.now owners.now starts.now items.now)) }
    ensures width_after { width.new ≡ extent_value (width_of (site_of head.now counts.now) (tables points.now boxes.now polygons.now owners.now starts.now items.now)) }
{
    let a = answers::scene_of(head, counts, points, boxes, polygons, owners, starts, items).width();
    *width = answers::extent_value(a);
    refusal::status(a)
}

// The height.
#[unsafe(no_mangle)]
pub extern "C" fn bf_scene_height(
    head: &[f64; 6],
    counts: &[u32; 5],
    points: &[f64],
    boxes: &[f64],
    polygons: &[u32],
    owners: &[u32],
    starts: &[u32],
    items: &[u32],
    height: &mut f64,
) -> u32
    ensures value { result ≡ status_of (height_of (site_of head.now counts.now) (tables points.now boxes.now polygons.now owners.now starts.now items.now)) }
    ensures height_after { height.new ≡ extent_value (height_of (site_of head.now counts.now) (tables points.now boxes.now polygons.now owners.now starts.now items.now)) }
{
    let a = answers::scene_of(
        head, counts, points, boxes, polygons, owners, starts, items,
    ).height();
    *height = answers::extent_value(a);
    refusal::status(a)
}

// Columns and rows.
#[unsafe(no_mangle)]
pub extern "C" fn bf_scene_dims(
    head: &[f64; 6],
    counts: &[u32; 5],
    points: &[f64],
    boxes: &[f64],
    polygons: &[u32],
    owners: &[u32],
    starts: &[u32],
    items: &[u32],
    dims: &mut [u32; 2],
) -> u32
    ensures value { result ≡ status_of (dims_of (site_of head.now counts.now) (tables points.now boxes.now polygons.now owners.now starts.now items.now)) }
    ensures dims_after { dims.new ≡ dims_two (dims_of (site_of head.now counts.now) (tables points.now boxes.now polygons.now owners.now starts.now items.now)) }
{
    let a = answers::scene_of(head, counts, points, boxes, polygons, owners, starts, items).dims();
    answers::put_dims(dims, a);
    refusal::status(a)
}

// New stamps.
#[unsafe(no_mangle)]
pub extern "C" fn bf_scene_new_stamps(
    head: &[f64; 6],
    counts: &[u32; 5],
    points: &[f64],
    boxes: &[f64],
    polygons: &[u32],
    owners: &[u32],
    starts: &[u32],
    items: &[u32],
    marks: &mut [u32],
    epoch: &mut u32,
) -> u32
    ensures { Anew (new_stamps_of (site_of head.now counts.now) (tables points.now boxes.now polygons.now owners.now starts.now items.now) marks.old epoch.old) result marks.new epoch.new }
{
    refusal::status(answers::scene_of(
        head, counts, points, boxes, polygons, owners, starts, items,
    ).new_stamps(marks, epoch))
}

// Builds a site into the lent tables. The head is left in `head` and `counts`, zeros on refusal.
#[unsafe(no_mangle)]
pub extern "C" fn bf_scene_new(
    width: f64,
    height: f64,
    given: &[f64],
    lens: &[u32],
    points: &mut [f64],
    boxes: &mut [f64],
    polygons: &mut [u32],
    owners: &mut [u32],
    starts: &mut [u32],
    items: &mut [u32],
    head: &mut [f64; 6],
    counts: &mut [u32; 5],
) -> u32
    ensures { Builds (outcome width height given.now lens.now (tables points.old boxes.old polygons.old owners.old starts.old items.old)) result
        (tables points.new boxes.new polygons.new owners.new starts.new items.new) head.new counts.new }
{
    let a = build::new(
        width, height, given, lens, points, boxes, polygons, owners, starts, items,
    );
    answers::put_head(head, a);
    answers::put_head_counts(counts, a);
    refusal::status(a)
}

// Draws a random site of `number` polygons and builds it into the lent tables. The head is left in `head` and `counts`, zeros on refusal.
#[unsafe(no_mangle)]
pub extern "C" fn bf_scene_random(
    width: f64,
    height: f64,
    number: u32,
    seed: u64,
    points: &mut [f64],
    boxes: &mut [f64],
    polygons: &mut [u32],
    owners: &mut [u32],
    starts: &mut [u32],
    items: &mut [u32],
    head: &mut [f64; 6],
    counts: &mut [u32; 5],
) -> u32
    ensures { Builds (drawing.outcome (config_of width height number seed) (tables points.old boxes.old polygons.old owners.old starts.old items.old)) result
        (tables points.new boxes.new polygons.new owners.new starts.new items.new) head.new counts.new }
{
    let config = SceneConfig {
        width,
        height,
        polygon_count: number as usize,
        seed,
    };
    let a = random::random(config, points, boxes, polygons, owners, starts, items);
    answers::put_head(head, a);
    answers::put_head_counts(counts, a);
    refusal::status(a)
}
