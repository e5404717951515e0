// Questions that only read, without the tests of the tables and of the domain, for comparing and timing alone, as the calls of src/inner.rt are. They are
// no part of the interface for users. Each has the parameters of the `bf_scene_..` call and does what that call does once its tests are passed, the loading
// of numbers included: `bf_inner_bounds` reads every box, the others a number or a few. Every content of every slice is allowed: past a table's end a number
// is 0 and a float is NaN. The status is always 0. `bf_inner_items_at_number` is the probe's, of a grid, and the oracle links both: ours is
// `bf_inner_site_items_at_number`.
ghost use Rattle.std.specs.Prelude.{◌≡◌, [], ◌∷◌, length, Ok};
ghost use Rattle.geom.specs.Vec.{vec};
ghost use Rattle.grid.specs.Boxes.{box_at};
ghost use Rattle.grid.specs.Query.{items_at};
ghost use Rattle.extent.specs.Boxes.{boxes_of};
ghost use Rattle.extent.specs.Extent.{bounds_of};
ghost use Rattle.site.specs.Tables.{first_of, len_of, owner_at, edge_end_of, edge_of};
ghost use Rattle.site.specs.Domain.{load_of, load_point_of};
ghost use Rattle.build.specs.Stored.{box_numbers};
ghost use Rattle.scene.specs.Numbers.{segment_four};
ghost use Rattle.answers.specs.Head.{site_of};

use geom::Vec2;
use grid::Dims;
use scene::Polygon;

// How many ids the cell of a point has.
#[unsafe(no_mangle)]
pub extern "C" fn bf_inner_site_items_at_number(
    head: &[f64; 6],
    counts: &[u32; 5],
    points: &[f64],
    boxes: &[f64],
    polygons: &[u32],
    owners: &[u32],
    starts: &[u32],
    items: &[u32],
    x: f64,
    y: f64,
    number: &mut u64,
) -> u32
    ensures value { result ≡ 0 }
    ensures number_after { number.new ≡ length (items_at (site_of head.now counts.now).grid (load_point_of (vec x y)) starts.now items.now) }
{
    let g = answers::site_of(head, counts).grid;
    let p = site::load_point(Vec2 { x, y });
    *number = grid::items_at_number(g, starts, items, p) as u64;
    0
}

// The ends of an edge.
#[unsafe(no_mangle)]
pub extern "C" fn bf_inner_edge(
    head: &[f64; 6],
    counts: &[u32; 5],
    points: &[f64],
    boxes: &[f64],
    polygons: &[u32],
    owners: &[u32],
    starts: &[u32],
    items: &[u32],
    edge: u32,
    ends: &mut [f64; 4],
) -> u32
    ensures value { result ≡ 0 }
    ensures ends_after { ends.new ≡ segment_four (Ok (edge_of points.now polygons.now owners.now edge)) }
{
    answers::put_ends(ends, Ok(site::edge(points, polygons, owners, edge)));
    0
}

// The number of the point where an edge ends.
#[unsafe(no_mangle)]
pub extern "C" fn bf_inner_edge_end(
    head: &[f64; 6],
    counts: &[u32; 5],
    points: &[f64],
    boxes: &[f64],
    polygons: &[u32],
    owners: &[u32],
    starts: &[u32],
    items: &[u32],
    edge: u32,
    end: &mut u32,
) -> u32
    ensures value { result ≡ 0 }
    ensures end_after { end.new ≡ edge_end_of polygons.now owners.now edge }
{
    *end = site::edge_end(polygons, owners, edge);
    0
}

// The polygon that owns an edge.
#[unsafe(no_mangle)]
pub extern "C" fn bf_inner_edge_owner(
    head: &[f64; 6],
    counts: &[u32; 5],
    points: &[f64],
    boxes: &[f64],
    polygons: &[u32],
    owners: &[u32],
    starts: &[u32],
    items: &[u32],
    edge: u32,
    owner: &mut u32,
) -> u32
    ensures value { result ≡ 0 }
    ensures owner_after { owner.new ≡ owner_at owners.now edge }
{
    *owner = site::owner_at(owners, edge as usize);
    0
}

// A polygon: its first point and their number, and its box.
#[unsafe(no_mangle)]
pub extern "C" fn bf_inner_polygon(
    head: &[f64; 6],
    counts: &[u32; 5],
    points: &[f64],
    boxes: &[f64],
    polygons: &[u32],
    owners: &[u32],
    starts: &[u32],
    items: &[u32],
    id: u32,
    place: &mut [u32; 2],
    b: &mut [f64; 4],
) -> u32
    ensures value { result ≡ 0 }
    ensures place_after { place.new ≡ first_of polygons.now id ∷ len_of polygons.now id ∷ [] }
    ensures b_after { b.new ≡ box_numbers (box_at boxes.now id) }
{
    let a = Ok(Polygon {
        first: site::first_of(polygons, id),
        len: site::len_of(polygons, id),
        aabb: grid::box_at(boxes, id as usize),
    });
    answers::put_place(place, a);
    answers::put_box(b, a);
    0
}

// How many points a polygon has.
#[unsafe(no_mangle)]
pub extern "C" fn bf_inner_polygon_vertices_number(
    head: &[f64; 6],
    counts: &[u32; 5],
    points: &[f64],
    boxes: &[f64],
    polygons: &[u32],
    owners: &[u32],
    starts: &[u32],
    items: &[u32],
    id: u32,
    number: &mut u64,
) -> u32
    ensures value { result ≡ 0 }
    ensures number_after { number.new ≡ len_of polygons.now id }
{
    *number = site::len_of(polygons, id) as u64;
    0
}

// The bounds: four numbers.
#[unsafe(no_mangle)]
pub extern "C" fn bf_inner_bounds(
    head: &[f64; 6],
    counts: &[u32; 5],
    points: &[f64],
    boxes: &[f64],
    polygons: &[u32],
    owners: &[u32],
    starts: &[u32],
    items: &[u32],
    b: &mut [f64; 4],
) -> u32
    ensures value { result ≡ 0 }
    ensures b_after { b.new ≡ box_numbers (bounds_of (load_of (site_of head.now counts.now).width) (load_of (site_of head.now counts.now).height) (boxes_of boxes.now (site_of head.now counts.now).polygons)) }
{
    let s = answers::site_of(head, counts);
    let count = s.polygons as usize;
    let a = extent::bounds_of(site::load(s.width), site::load(s.height), boxes, count);
    answers::put_bounds(b, Ok(a));
    0
}

// The width.
#[unsafe(no_mangle)]
pub extern "C" fn bf_inner_width(
    head: &[f64; 6],
    counts: &[u32; 5],
    points: &[f64],
    boxes: &[f64],
    polygons: &[u32],
    owners: &[u32],
    starts: &[u32],
    items: &[u32],
    width: &mut f64,
) -> u32
    ensures value { result ≡ 0 }
    ensures width_after { width.new ≡ load_of (site_of head.now counts.now).width }
{
    *width = site::load(answers::site_of(head, counts).width);
    0
}

// The height.
#[unsafe(no_mangle)]
pub extern "C" fn bf_inner_height(
    head: &[f64; 6],
    counts: &[u32; 5],
    points: &[f64],
    boxes: &[f64],
    polygons: &[u32],
    owners: &[u32],
    starts: &[u32],
    items: &[u32],
    height: &mut f64,
) -> u32
    ensures value { result ≡ 0 }
    ensures height_after { height.new ≡ load_of (site_of head.now counts.now).height }
{
    *height = site::load(answers::site_of(head, counts).height);
    0
}

// Columns and rows.
#[unsafe(no_mangle)]
pub extern "C" fn bf_inner_dims(
    head: &[f64; 6],
    counts: &[u32; 5],
    points: &[f64],
    boxes: &[f64],
    polygons: &[u32],
    owners: &[u32],
    starts: &[u32],
    items: &[u32],
    dims: &mut [u32; 2],
) -> u32
    ensures value { result ≡ 0 }
    ensures dims_after { dims.new ≡ (site_of head.now counts.now).grid.cols ∷ (site_of head.now counts.now).grid.rows ∷ [] }
{
    let g = answers::site_of(head, counts).grid;
    answers::put_dims(
        dims,
        Ok(Dims {
            cols: g.cols,
            rows: g.rows,
        }),
    );
    0
}
