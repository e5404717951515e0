// grid, tables and walk: 501 to 504 and 507, the inner functions of crate `probe`. A grid is six words from word 1 on, boxes are a count and their numbers.
// There is room for 64 cells, 64 numbers of boxes, 64 items, 16 marks and 64 ids; over that is no answer. The tables of 504 are built first, as 503 builds them.
ghost use Rattle.std.specs.Prelude.{◌≡◌, ◌*◌, ◌<◌, IfSome};
ghost use Rattle.grid.specs.Entries.{SoundGrid};
ghost use Rattle.tables.specs.Tables.{Buildable};
ghost use Rattle.probe.specs.Numbers.{grid_of};

use crate::answer;
use crate::answer::Answer;
use crate::plane::filled;
use lines::{float, narrow, push, push_list, word};

fn answer_range(w: &[u64]) -> Answer {
    let b = [float(w, 7), float(w, 8), float(w, 9), float(w, 10)];
    let mut out = [0u32; 4];
    let n = probe::bf_inner_cell_range(
        float(w, 1),
        float(w, 2),
        float(w, 3),
        float(w, 4),
        narrow(w, 5),
        narrow(w, 6),
        &b,
        &mut out,
    );
    Answer {
        count: 5,
        words: [
            u64::from(n),
            u64::from(out[0]),
            u64::from(out[1]),
            u64::from(out[2]),
            u64::from(out[3]),
        ],
    }
}

// How many cells a grid has.
fn cells_of(cols: u32, rows: u32) -> usize
    ensures { (result ≡ cols * rows) × (result < 18446744073709551615) }
{
    cols as usize * rows as usize
}

// Builds the tables. With the status 0 they are sound, so that 504 can ask them.
fn build_tables(
    gx: f64,
    gy: f64,
    cell: f64,
    inv: f64,
    cols: u32,
    rows: u32,
    boxes: &[f64],
    polygons: usize,
    starts: &mut [u32],
    items: &mut [u32],
    count: &mut u64,
) -> u32
    requires { Buildable (grid_of gx gy cell inv cols rows) boxes.now polygons }
    ensures { result ≡ 0 → SoundGrid cols rows starts.new items.new }
{
    probe::bf_inner_build(
        gx, gy, cell, inv, cols, rows, boxes, polygons, starts, items, count,
    )
}

// Builds the tables of the words' grid and boxes; the status, or nothing where the site is none or too large for this program.
fn build(
    w: &[u64],
    cols: u32,
    rows: u32,
    starts: &mut [u32],
    items: &mut [u32],
    count: &mut u64,
) -> Option<u32>
    ensures { IfSome result (λ status. status ≡ 0 → SoundGrid cols rows starts.new items.new) }
{
    if cols == 0 || rows == 0 || 64 < cells_of(cols, rows) {
        return None;
    }
    let n = word(w, 7);
    if 64 < n {
        return None;
    }
    let boxes = filled(w, 8);
    let end = n as usize;
    Some(build_tables(
        float(w, 1),
        float(w, 2),
        float(w, 3),
        float(w, 4),
        cols,
        rows,
        &boxes[..end],
        end / 4,
        starts,
        items,
        count,
    ))
}

fn answer_build(w: &[u64], out: &mut [u64]) -> usize {
    let cols = narrow(w, 5);
    let rows = narrow(w, 6);
    let mut starts = [0u32; 65];
    let mut items = [0u32; 64];
    let mut count: u64 = 0;
    let Some(status) = build(w, cols, rows, &mut starts, &mut items, &mut count) else {
        return 0;
    };
    let cells = cells_of(cols, rows);
    let mut at = push(&mut *out, 0, u64::from(status));
    at = push(&mut *out, at, count);
    at = push_list(&mut *out, at, &starts, cells + 1);
    push_list(&mut *out, at, &items, count as usize)
}

// 16 words of w from `first` on.
fn marks_of(w: &[u64], first: usize) -> [u32; 16]
    requires { first < 128 }
{
    let mut marks = [0u32; 16];
    for (i, mark) in marks.iter_mut().enumerate() {
        *mark = narrow(w, first + i);
    }
    marks
}

// The box and the epoch of 504 stand at `first`.
fn query(
    w: &[u64],
    first: usize,
    cols: u32,
    rows: u32,
    starts: &[u32],
    items: &[u32],
    marks: &mut [u32],
    ids: &mut [u32],
    out: &mut [u64],
) -> usize
    requires sound_grid { SoundGrid cols rows starts.now items.now }
    requires first_bound { first < 128 }
{
    let b = [
        float(w, first),
        float(w, first + 1),
        float(w, first + 2),
        float(w, first + 3),
    ];
    let mut epoch = narrow(w, first + 4);
    let mut counts = [0u64; 2];
    let status = probe::bf_inner_box_query(
        float(w, 1),
        float(w, 2),
        float(w, 3),
        float(w, 4),
        cols,
        rows,
        starts,
        items,
        &b,
        &mut *marks,
        &mut epoch,
        &mut *ids,
        &mut counts,
    );
    let mut at = push(&mut *out, 0, u64::from(status));
    at = push(&mut *out, at, counts[0]);
    at = push(&mut *out, at, counts[1]);
    at = push(&mut *out, at, u64::from(epoch));
    at = push_list(&mut *out, at, marks, marks.len());
    push_list(&mut *out, at, ids, ids.len())
}

// The question of 504 stands behind the boxes: four numbers, the epoch, the marks and the room for ids.
fn asked(w: &[u64], cols: u32, rows: u32, starts: &[u32], items: &[u32], out: &mut [u64]) -> usize
    requires { SoundGrid cols rows starts.now items.now }
{
    let n = word(w, 7);
    if 64 < n {
        return 0;
    }
    let first = n as usize + 8;
    let m = word(w, first + 5);
    if 16 < m {
        return 0;
    }
    let last = m as usize;
    let k = word(w, first + 6 + last);
    if 64 < k {
        return 0;
    }
    let room = k as usize;
    let mut marks = marks_of(w, first + 6);
    let mut ids = [0u32; 64];
    query(
        w,
        first,
        cols,
        rows,
        starts,
        items,
        &mut marks[..last],
        &mut ids[..room],
        out,
    )
}

fn answer_query(w: &[u64], out: &mut [u64]) -> usize {
    let cols = narrow(w, 5);
    let rows = narrow(w, 6);
    let mut starts = [0u32; 65];
    let mut items = [0u32; 64];
    let mut count: u64 = 0;
    match build(w, cols, rows, &mut starts, &mut items, &mut count) {
        Some(0) => asked(w, cols, rows, &starts, &items, out),
        _ => 0,
    }
}

fn answer_cells(w: &[u64], out: &mut [u64]) -> usize {
    let mut cells = [0u32; 64];
    let n = probe::bf_inner_ray_cells(
        float(w, 1),
        float(w, 2),
        float(w, 3),
        float(w, 4),
        narrow(w, 5),
        narrow(w, 6),
        float(w, 7),
        float(w, 8),
        float(w, 9),
        float(w, 10),
        float(w, 11),
        &mut cells,
    );
    let at = push(&mut *out, 0, n as u64);
    push_list(&mut *out, at, &cells, n)
}

pub(crate) fn answer_inner(f: u64, w: &[u64], out: &mut [u64]) -> usize {
    match f {
        501 => {
            let columns = probe::bf_inner_columns(float(w, 1), float(w, 2));
            answer::store(out, answer::word(columns))
        }
        502 => answer::store(out, answer_range(w)),
        503 => answer_build(w, out),
        504 => answer_query(w, out),
        507 => answer_cells(w, out),
        _ => 0,
    }
}
