// The probe: inner functions of `grid`, `tables` and `walk`, and of `wkt` and `wkt_print`, for the oracle's comparing and timing alone. It is no part of the
// C interface for users (crate `exports`): nothing here tests the tables that it is lent.
// Each function is one call of the library under it, with its promise and its `requires`; `bf_inner_ray_cells` runs the walk to its end.
// A grid is six numbers, a box four. In C a slice is a pointer and a length, and an array is a pointer.
#![tactic(auto)]

mod numbers;

ghost use Rattle.std.specs.Prelude.{◌≡◌, ◌≤◌, length, get_or};
ghost use Rattle.std.proofs.lemmas.List.Edits.{sets};
ghost use Rattle.refusal.specs.Numbers.{status_of};
ghost use Rattle.geom.specs.Vec.{vec};
ghost use Rattle.grid.specs.Boxes.{box_at};
ghost use Rattle.grid.specs.Range.{columns_of, range_of};
ghost use Rattle.grid.specs.Stamps.{epoch_after, marks_begun};
ghost use Rattle.grid.specs.Entries.{SoundGrid};
ghost use Rattle.grid.specs.Query.{outcome, items_at};
ghost use Rattle.grid.specs.Numbers.{Lists};
ghost use Rattle.tables.specs.Tables.{Buildable};
ghost use Rattle.tables.specs.Tables as tables;
ghost use Rattle.walk.specs.Steps.{OnGrid};
ghost use Rattle.walk.specs.Tours.{ray_cells, passer_by};
ghost use Rattle.wkt.specs.Answer.{text_in, input_of, Says};
ghost use Rattle.wkt_print.specs.Decimal.{shown, Printed};
ghost use Rattle.probe.specs.Numbers.{grid_of, found, four_of, Builds, low, lows, cells_along};

use geom::Vec2;
use walk::{Course, Place};

#[unsafe(no_mangle)]
pub extern "C" fn bf_inner_columns(extent: f64, cell: f64) -> u64
    ensures { result ≡ columns_of extent cell }
{
    grid::columns(extent, cell)
}

#[unsafe(no_mangle)]
pub extern "C" fn bf_inner_cell_range(
    gx: f64,
    gy: f64,
    cell: f64,
    inv: f64,
    cols: u32,
    rows: u32,
    b: &[f64; 4],
    out: &mut [u32; 4],
) -> u32
    ensures value { result ≡ found (range_of (grid_of gx gy cell inv cols rows) (box_at b.now 0)) }
    ensures out_after { out.new ≡ four_of (range_of (grid_of gx gy cell inv cols rows) (box_at b.now 0)) }
{
    let r = numbers::grid_of(gx, gy, cell, inv, cols, rows).cell_range(numbers::box_of(b));
    numbers::put_range(out, r);
    numbers::found(r)
}

#[unsafe(no_mangle)]
pub extern "C" fn bf_inner_build(
    gx: f64,
    gy: f64,
    cell: f64,
    inv: f64,
    cols: u32,
    rows: u32,
    boxes: &[f64],
    polygons: usize,
    starts: &mut [u32],
    items: &mut [u32],
    count: &mut u64,
) -> u32
    requires { Buildable (grid_of gx gy cell inv cols rows) boxes.now polygons }
    ensures { Builds (tables.outcome (grid_of gx gy cell inv cols rows) boxes.now polygons starts.old items.old)
        result starts.new items.new count.new }
{
    let a = tables::build(
        numbers::grid_of(gx, gy, cell, inv, cols, rows),
        boxes,
        polygons,
        starts,
        items,
    );
    *count = numbers::built_count(a);
    refusal::status(a)
}

#[unsafe(no_mangle)]
pub extern "C" fn bf_inner_box_query(
    gx: f64,
    gy: f64,
    cell: f64,
    inv: f64,
    cols: u32,
    rows: u32,
    starts: &[u32],
    items: &[u32],
    b: &[f64; 4],
    marks: &mut [u32],
    epoch: &mut u32,
    ids: &mut [u32],
    counts: &mut [u64; 2],
) -> u32
    requires { SoundGrid cols rows starts.now items.now }
    ensures { Lists (outcome (grid_of gx gy cell inv cols rows) (box_at b.now 0) starts.now items.now marks.old epoch.old (length ids.old))
        result marks.new epoch.new ids.new counts.new }
{
    let a = grid::box_query(
        numbers::grid_of(gx, gy, cell, inv, cols, rows),
        starts,
        items,
        numbers::box_of(b),
        marks,
        epoch,
        ids,
    );
    numbers::put_counts(counts, a);
    refusal::status(a)
}

#[unsafe(no_mangle)]
pub extern "C" fn bf_inner_item_at(
    gx: f64,
    gy: f64,
    cell: f64,
    inv: f64,
    cols: u32,
    rows: u32,
    starts: &[u32],
    items: &[u32],
    x: f64,
    y: f64,
    i: usize,
) -> u32
    ensures { result ≡ get_or (items_at (grid_of gx gy cell inv cols rows) (vec x y) starts.now items.now) i 0 }
{
    let g = numbers::grid_of(gx, gy, cell, inv, cols, rows);
    lists::at(grid::items_at(g, starts, items, Vec2 { x, y }), i)
}

#[unsafe(no_mangle)]
pub extern "C" fn bf_inner_items_at_number(
    gx: f64,
    gy: f64,
    cell: f64,
    inv: f64,
    cols: u32,
    rows: u32,
    starts: &[u32],
    items: &[u32],
    x: f64,
    y: f64,
) -> usize
    ensures { result ≡ length (items_at (grid_of gx gy cell inv cols rows) (vec x y) starts.now items.now) }
{
    let g = numbers::grid_of(gx, gy, cell, inv, cols, rows);
    grid::items_at_number(g, starts, items, Vec2 { x, y })
}

// The low 32 bits of a cell's number.
fn low(c: usize) -> u32
    ensures { result ≡ low c }
{
    (c % 4294967296) as u32
}

// The cells from the place `start` on into out, as far as there is room; how many there are.
fn list_cells(k: Course, start: Place, out: &mut [u32]) -> usize
    requires { OnGrid k start }
    ensures value { result ≡ length (cells_along k start) }
    ensures out_after { out.new ≡ sets out.old 0 (cells_along k start) }
{
    let mut p = start;
    let mut n = 0;
    // From place to place, up to the step that has none.
    loop {
        lists::put(&mut *out, n, low(walk::cell_of(k, p)));
        n += 1;
        match walk::advance(k, p) {
            Some(q) => p = q,
            None => return n,
        }
    }
}

// The whole walk as a list writer: the cells entered, in order, written as far as there is room and counted on.
#[unsafe(no_mangle)]
pub extern "C" fn bf_inner_ray_cells(
    gx: f64,
    gy: f64,
    cell: f64,
    inv: f64,
    cols: u32,
    rows: u32,
    ox: f64,
    oy: f64,
    dx: f64,
    dy: f64,
    len: f64,
    out: &mut [u32],
) -> usize
    ensures value { result ≡ length (ray_cells passer_by (grid_of gx gy cell inv cols rows) (vec ox oy) (vec dx dy) len tt) }
    ensures out_after { out.new ≡ sets out.old 0 (lows (ray_cells passer_by (grid_of gx gy cell inv cols rows) (vec ox oy) (vec dx dy) len tt)) }
{
    let g = numbers::grid_of(gx, gy, cell, inv, cols, rows);
    match walk::traverse_ray(g, Vec2 { x: ox, y: oy }, Vec2 { x: dx, y: dy }, len) {
        Some((k, p)) => list_cells(k, p, out),
        None => 0,
    }
}

#[unsafe(no_mangle)]
pub extern "C" fn bf_inner_next_epoch(marks: &mut [u32], epoch: &mut u32)
    ensures epoch_after { epoch.new ≡ epoch_after epoch.old }
    ensures marks_after { marks.new ≡ marks_begun epoch.old marks.old }
{
    grid::next_epoch(marks, epoch);
}

// ---- text

// What is read of a text: 0, or the refusal's number.
#[unsafe(no_mangle)]
pub extern "C" fn bf_inner_read_input(text: &[u8], pts: &mut [f64], lens: &mut [u32]) -> u32
    ensures value { result ≡ status_of (input_of (text_in text.now)) }
    ensures says { Says text.now (length pts.old) (length lens.old) (input_of (text_in text.now)) pts.new lens.new }
{
    refusal::status(wkt::read_input(text, pts, lens))
}

// A number with `places` decimals, from the start of `out`.
#[unsafe(no_mangle)]
pub extern "C" fn bf_inner_print_number(x: f64, places: usize, out: &mut [u8]) -> usize
    requires { places ≤ 6 }
    ensures { Printed out.old 0 (shown places x) out.new result }
{
    wkt_print::print_number(out, 0, x, places)
}
