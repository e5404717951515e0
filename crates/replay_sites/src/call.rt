// The lines that ask a site, by number: 602 to 609 are questions, 701 is an outline, 702 an outline and 703 a ray in a mode. `oracle/src/scene/lines.rs` has the
// same numbers.
use crate::{outlines, questions};
use lines::word;

// The results of the call that the words of w name, into out; how many there are, 0 where there is no such function.
pub(crate) fn answer(
    head: &[f64; 6],
    counts: &[u32; 5],
    points: &[f64],
    boxes: &[f64],
    polygons: &[u32],
    owners: &[u32],
    starts: &[u32],
    items: &[u32],
    w: &[u64],
    out: &mut [u64],
) -> usize {
    let f = word(w, 0);
    match f {
        0..=699 => questions::answer(
            f, head, counts, points, boxes, polygons, owners, starts, items, w, out,
        ),
        703 => questions::answer_ray_in_mode(
            head, counts, points, boxes, polygons, owners, starts, items, w, out,
        ),
        _ => outlines::answer(
            f, head, counts, points, boxes, polygons, owners, starts, items, w, out,
        ),
    }
}
