// 701: an outline of the site in mode 0. The words after the number are the post's x and y, its range, direction and opening angle, and the tolerance.
// 702: the same in a mode, which is the first word after the number.
// There is room for 700 points and 16 visible ids; the work lists have the entries below.
use crate::results;
use lines::{float, narrow};

// The numbers of the lines that ask for an outline.
const OUTLINE: u64 = 701;

const OUTLINE_IN_MODE: u64 = 702;

// Ids, edges, events, corners, samples, bucket starts, references, owners and corners seen. The floats and words of `drawn` are what these take.
fn entries() -> [u32; 9] {
    [16, 96, 194, 96, 600, 257, 3000, 600, 32]
}

// The outline, with marks that are all zero before.
fn drawn(
    head: &[f64; 6],
    counts: &[u32; 5],
    points: &[f64],
    boxes: &[f64],
    polygons: &[u32],
    owners: &[u32],
    starts: &[u32],
    items: &[u32],
    cone: &[f64; 5],
    tolerance: f64,
    mode: u32,
    outline: &mut [f64],
    visible: &mut [u32],
    answer: &mut [u64; 9],
) -> u32 {
    let allowed = entries();
    let mut marks = [0u32; 16];
    let mut epoch: u32 = 0;
    let mut floats = [0.0; 3460];
    let mut words = [0u32; 8743];
    exports_view::bf_compute_visibility(
        head,
        counts,
        points,
        boxes,
        polygons,
        owners,
        starts,
        items,
        cone,
        tolerance,
        mode,
        &allowed,
        &mut marks,
        &mut epoch,
        &mut floats,
        &mut words,
        outline,
        visible,
        answer,
    )
}

// It as words.
fn answer_cone(
    head: &[f64; 6],
    counts: &[u32; 5],
    points: &[f64],
    boxes: &[f64],
    polygons: &[u32],
    owners: &[u32],
    starts: &[u32],
    items: &[u32],
    cone: &[f64; 5],
    tolerance: f64,
    mode: u32,
    out: &mut [u64],
) -> usize {
    let mut outline = [0.0; 1400];
    let mut visible = [0u32; 16];
    let mut answer = [0u64; 9];
    let status = drawn(
        head,
        counts,
        points,
        boxes,
        polygons,
        owners,
        starts,
        items,
        cone,
        tolerance,
        mode,
        &mut outline,
        &mut visible,
        &mut answer,
    );
    results::outline(out, status, &answer, &outline, &visible)
}

// 701.
fn answer_outline(
    head: &[f64; 6],
    counts: &[u32; 5],
    points: &[f64],
    boxes: &[f64],
    polygons: &[u32],
    owners: &[u32],
    starts: &[u32],
    items: &[u32],
    w: &[u64],
    out: &mut [u64],
) -> usize {
    let cone = [
        float(w, 1),
        float(w, 2),
        float(w, 3),
        float(w, 4),
        float(w, 5),
    ];
    answer_cone(
        head,
        counts,
        points,
        boxes,
        polygons,
        owners,
        starts,
        items,
        &cone,
        float(w, 6),
        0,
        out,
    )
}

// 702.
fn answer_in_mode(
    head: &[f64; 6],
    counts: &[u32; 5],
    points: &[f64],
    boxes: &[f64],
    polygons: &[u32],
    owners: &[u32],
    starts: &[u32],
    items: &[u32],
    w: &[u64],
    out: &mut [u64],
) -> usize {
    let cone = [
        float(w, 2),
        float(w, 3),
        float(w, 4),
        float(w, 5),
        float(w, 6),
    ];
    answer_cone(
        head,
        counts,
        points,
        boxes,
        polygons,
        owners,
        starts,
        items,
        &cone,
        float(w, 7),
        narrow(w, 1),
        out,
    )
}

// The answer of the function f, by the words of its line; 0 words where there is no such function.
pub(crate) fn answer(
    f: u64,
    head: &[f64; 6],
    counts: &[u32; 5],
    points: &[f64],
    boxes: &[f64],
    polygons: &[u32],
    owners: &[u32],
    starts: &[u32],
    items: &[u32],
    w: &[u64],
    out: &mut [u64],
) -> usize {
    match f {
        OUTLINE => answer_outline(
            head, counts, points, boxes, polygons, owners, starts, items, w, out,
        ),
        OUTLINE_IN_MODE => answer_in_mode(
            head, counts, points, boxes, polygons, owners, starts, items, w, out,
        ),
        _ => 0,
    }
}
