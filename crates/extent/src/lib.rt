// The extent of a site: a polygon's box, the bounds and the size of the cells, each by one box more, as building meets the boxes: `Scene::new` and
// `pick_cell_size` of the Rust's `scene.rs`; document 01, "Site and grid". That the bounds, the cell, columns and rows of a site that building makes are sound is
// proofs/SoundHead.antt. Meanings: specs/Boxes.antt, specs/Extent.antt, specs/Sound.antt.
#![tactic(auto)]

ghost use Rattle.std.specs.Prelude.{◌≡◌, ◌+◌, ◌^◌, ◌<◌, min};
ghost use Rattle.extent.specs.Boxes.{polygon_box_of, box_count, boxes_of};
ghost use Rattle.extent.specs.Extent.{bounds_of, join_box_of, side_of, add_side_of, cell_from};

use geom::{Aabb, Vec2};

// The box that a polygon's points give: a polygon of fewer than three has the empty one, so that no query ever meets it.
pub fn polygon_box(points: &[f64]) -> Aabb
    ensures { result ≡ polygon_box_of points.now }
{
    if points.len() / 2 < 3 {
        return Aabb::empty();
    }
    Aabb::from_points(points)
}

// How many numbers a box takes in the table of boxes.
const STRIDE: usize = 4;

// How many boxes there are: n, or as many as the table has whole.
fn count(boxes: &[f64], n: usize) -> usize
    ensures { result ≡ min n (box_count boxes.now) }
{
    n.min(boxes.len() / STRIDE)
}

// The bounds a, joined with the box b unless it is empty.
pub fn join_box(a: Aabb, b: Aabb) -> Aabb
    ensures { result ≡ join_box_of a b }
{
    if b.is_empty() {
        return a;
    }
    a.union(b)
}

// The bounds of a site: the box from (0, 0) to (width, height), joined with every box of the first n that is not empty.
pub fn bounds_of(width: f64, height: f64, boxes: &[f64], n: usize) -> Aabb
    ensures { result ≡ bounds_of width height (boxes_of boxes.now n) }
{
    let mut b = Aabb {
        min: Vec2 { x: 0.0, y: 0.0 },
        max: Vec2 {
            x: width,
            y: height,
        },
    };
    for i in 0..count(boxes, n) {
        b = join_box(b, grid::box_at(boxes, i));
    }
    b
}

// The larger sides of the boxes met so far that are not empty: their sum and their number.
#[derive(Clone, Copy)]
pub struct Sides {
    pub sum: f64,
    pub count: u64,
}

// The larger side of a box.
fn side(b: Aabb) -> f64
    ensures { result ≡ side_of b }
{
    num::max(b.width(), b.height())
}

// The side of the box b added, unless it is empty.
pub fn add_side(s: Sides, b: Aabb) -> Sides
    requires { s.count + 1 < 2 ^ 64 }
    ensures { result ≡ add_side_of s b }
{
    if b.is_empty() {
        return s;
    }
    Sides {
        sum: s.sum + side(b),
        count: s.count + 1,
    }
}

// About how many cells a site may have before they grow.
const CELLS_CAP: f64 = 4000000.0;

// The size of the cells: about one average box in a cell, and about four million cells at most.
pub fn cell_from(s: Sides, bounds: Aabb) -> f64
    ensures { result ≡ cell_from s bounds }
{
    if s.count == 0 {
        return num::max(side(bounds), 1.0);
    }
    let mean_extent = s.sum / std::num::nearest_u64_to_f64(s.count);
    let min_for_cap = num::sqrt(bounds.width() * bounds.height() / CELLS_CAP);
    num::max(num::max(mean_extent, min_for_cap), 1.0)
}
