// Questions that only read, without the tests, for comparing and timing alone: the functions of crates/exports_scene/src/reads.rt.
ghost use Rattle.std.specs.Prelude.{◌≡◌, [], ◌∷◌, length, Ok};
ghost use Rattle.geom.specs.Vec.{vec};
ghost use Rattle.grid.specs.Boxes.{box_at};
ghost use Rattle.grid.specs.Query.{items_at};
ghost use Rattle.extent.specs.Boxes.{boxes_of};
ghost use Rattle.extent.specs.Extent.{bounds_of};
ghost use Rattle.site.specs.Tables.{first_of, len_of, owner_at, edge_end_of, edge_of};
ghost use Rattle.site.specs.Domain.{load_of, load_point_of};
ghost use Rattle.build.specs.Stored.{box_numbers};
ghost use Rattle.scene.specs.Numbers.{segment_four};
ghost use Rattle.answers.specs.Head.{site_of};

// How many ids the cell of a point has.
#[unsafe(no_mangle)]
pub extern "C" fn bf_inner_site_items_at_number(
    head: &[f64; 6],
    counts: &[u32; 5],
    points: &[f64],
    boxes: &[f64],
    polygons: &[u32],
    owners: &[u32],
    starts: &[u32],
    items: &[u32],
    x: f64,
    y: f64,
    number: &mut u64,
) -> u32
    ensures value { result ≡ 0 }
    ensures number_after { number.new ≡ length (items_at (site_of head.now counts.now).grid (load_point_of (vec x y)) starts.now items.now) }
{
    exports_scene::reads::bf_inner_site_items_at_number(
        head, counts, points, boxes, polygons, owners, starts, items, x, y, number,
    )
}

// The ends of an edge.
#[unsafe(no_mangle)]
pub extern "C" fn bf_inner_edge(
    head: &[f64; 6],
    counts: &[u32; 5],
    points: &[f64],
    boxes: &[f64],
    polygons: &[u32],
    owners: &[u32],
    starts: &[u32],
    items: &[u32],
    edge: u32,
    ends: &mut [f64; 4],
) -> u32
    ensures value { result ≡ 0 }
    ensures ends_after { ends.new ≡ segment_four (Ok (edge_of points.now polygons.now owners.now edge)) }
{
    exports_scene::reads::bf_inner_edge(
        head, counts, points, boxes, polygons, owners, starts, items, edge, ends,
    )
}

// The number of the point where an edge ends.
#[unsafe(no_mangle)]
pub extern "C" fn bf_inner_edge_end(
    head: &[f64; 6],
    counts: &[u32; 5],
    points: &[f64],
    boxes: &[f64],
    polygons: &[u32],
    owners: &[u32],
    starts: &[u32],
    items: &[u32],
    edge: u32,
    end: &mut u32,
) -> u32
    ensures value { result ≡ 0 }
    ensures end_after { end.new ≡ edge_end_of polygons.now owners.now edge }
{
    exports_scene::reads::bf_inner_edge_end(
        head, counts, points, boxes, polygons, owners, starts, items, edge, end,
    )
}

// The polygon that owns an edge.
#[unsafe(no_mangle)]
pub extern "C" fn bf_inner_edge_owner(
    head: &[f64; 6],
    counts: &[u32; 5],
    points: &[f64],
    boxes: &[f64],
    polygons: &[u32],
    owners: &[u32],
    starts: &[u32],
    items: &[u32],
    edge: u32,
    owner: &mut u32,
) -> u32
    ensures value { result ≡ 0 }
    ensures owner_after { owner.new ≡ owner_at owners.now edge }
{
    exports_scene::reads::bf_inner_edge_owner(
        head, counts, points, boxes, polygons, owners, starts, items, edge, owner,
    )
}

// A polygon: its first point and their number, and its box.
#[unsafe(no_mangle)]
pub extern "C" fn bf_inner_polygon(
    head: &[f64; 6],
    counts: &[u32; 5],
    points: &[f64],
    boxes: &[f64],
    polygons: &[u32],
    owners: &[u32],
    starts: &[u32],
    items: &[u32],
    id: u32,
    place: &mut [u32; 2],
    b: &mut [f64; 4],
) -> u32
    ensures value { result ≡ 0 }
    ensures place_after { place.new ≡ first_of polygons.now id ∷ len_of polygons.now id ∷ [] }
    ensures b_after { b.new ≡ box_numbers (box_at boxes.now id) }
{
    exports_scene::reads::bf_inner_polygon(
        head, counts, points, boxes, polygons, owners, starts, items, id, place, b,
    )
}

// How many points a polygon has.
#[unsafe(no_mangle)]
pub extern "C" fn bf_inner_polygon_vertices_number(
    head: &[f64; 6],
    counts: &[u32; 5],
    points: &[f64],
    boxes: &[f64],
    polygons: &[u32],
    owners: &[u32],
    starts: &[u32],
    items: &[u32],
    id: u32,
    number: &mut u64,
) -> u32
    ensures value { result ≡ 0 }
    ensures number_after { number.new ≡ len_of polygons.now id }
{
    exports_scene::reads::bf_inner_polygon_vertices_number(
        head, counts, points, boxes, polygons, owners, starts, items, id, number,
    )
}

// The bounds: four numbers.
#[unsafe(no_mangle)]
pub extern "C" fn bf_inner_bounds(
    head: &[f64; 6],
    counts: &[u32; 5],
    points: &[f64],
    boxes: &[f64],
    polygons: &[u32],
    owners: &[u32],
    starts: &[u32],
    items: &[u32],
    b: &mut [f64; 4],
) -> u32
    ensures value { result ≡ 0 }
    ensures b_after { b.new ≡ box_numbers (bounds_of (load_of (site_of head.now counts.now).width) (load_of (site_of head.now counts.now).height) (boxes_of boxes.now (site_of head.now counts.now).polygons)) }
{
    exports_scene::reads::bf_inner_bounds(
        head, counts, points, boxes, polygons, owners, starts, items, b,
    )
}

// The width.
#[unsafe(no_mangle)]
pub extern "C" fn bf_inner_width(
    head: &[f64; 6],
    counts: &[u32; 5],
    points: &[f64],
    boxes: &[f64],
    polygons: &[u32],
    owners: &[u32],
    starts: &[u32],
    items: &[u32],
    width: &mut f64,
) -> u32
    ensures value { result ≡ 0 }
    ensures width_after { width.new ≡ load_of (site_of head.now counts.now).width }
{
    exports_scene::reads::bf_inner_width(
        head, counts, points, boxes, polygons, owners, starts, items, width,
    )
}

// The height.
#[unsafe(no_mangle)]
pub extern "C" fn bf_inner_height(
    head: &[f64; 6],
    counts: &[u32; 5],
    points: &[f64],
    boxes: &[f64],
    polygons: &[u32],
    owners: &[u32],
    starts: &[u32],
    items: &[u32],
    height: &mut f64,
) -> u32
    ensures value { result ≡ 0 }
    ensures height_after { height.new ≡ load_of (site_of head.now counts.now).height }
{
    exports_scene::reads::bf_inner_height(
        head, counts, points, boxes, polygons, owners, starts, items, height,
    )
}

// Columns and rows.
#[unsafe(no_mangle)]
pub extern "C" fn bf_inner_dims(
    head: &[f64; 6],
    counts: &[u32; 5],
    points: &[f64],
    boxes: &[f64],
    polygons: &[u32],
    owners: &[u32],
    starts: &[u32],
    items: &[u32],
    dims: &mut [u32; 2],
) -> u32
    ensures value { result ≡ 0 }
    ensures dims_after { dims.new ≡ (site_of head.now counts.now).grid.cols ∷ (site_of head.now counts.now).grid.rows ∷ [] }
{
    exports_scene::reads::bf_inner_dims(
        head, counts, points, boxes, polygons, owners, starts, items, dims,
    )
}
