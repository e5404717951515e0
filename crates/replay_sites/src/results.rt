// Answers as the words of a line: statuses and numbers as they are, floats by their bit patterns. Each function says how many words there are then.
use lines::{pattern, push, push_floats, push_list};

// A status and a float.
pub(crate) fn one(out: &mut [u64], at: usize, status: u32, x: f64) -> usize {
    let next = push(&mut *out, at, u64::from(status));
    push(&mut *out, next, pattern(x))
}

// A status and two numbers.
pub(crate) fn two(out: &mut [u64], at: usize, status: u32, v: &[u32; 2]) -> usize {
    let next = push(&mut *out, at, u64::from(status));
    push_list(&mut *out, next, v, 2)
}

// A status, ids written and entries read.
fn counted(out: &mut [u64], status: u32, tally: &[u64; 2]) -> usize {
    let mut at = push(&mut *out, 0, u64::from(status));
    at = push(&mut *out, at, tally[0]);
    push(&mut *out, at, tally[1])
}

// The box query: ids written, entries read, the epoch, and all ids that there was room for.
pub(crate) fn near(
    out: &mut [u64],
    status: u32,
    tally: &[u64; 2],
    epoch: u32,
    ids: &[u32],
) -> usize {
    let mut at = counted(&mut *out, status, tally);
    at = push(&mut *out, at, u64::from(epoch));
    push_list(&mut *out, at, ids, ids.len())
}

// The same without stamps.
pub(crate) fn near_plain(out: &mut [u64], status: u32, tally: &[u64; 2], ids: &[u32]) -> usize {
    let at = counted(&mut *out, status, tally);
    push_list(&mut *out, at, ids, ids.len())
}

// A ray: the distance, whether there is a hit, its edge, and cells entered.
pub(crate) fn look(out: &mut [u64], status: u32, t: f64, found: &[u64; 3]) -> usize {
    let mut at = one(&mut *out, 0, status, t);
    at = push(&mut *out, at, found[0]);
    at = push(&mut *out, at, found[1]);
    push(&mut *out, at, found[2])
}

// A head: six floats, five numbers.
pub(crate) fn head(out: &mut [u64], status: u32, head: &[f64; 6], counts: &[u32; 5]) -> usize {
    let mut at = push(&mut *out, 0, u64::from(status));
    at = push_floats(&mut *out, at, head, 6);
    push_list(&mut *out, at, counts, 5)
}

// An edge: the three statuses, the ends, the number of its end, its owner.
pub(crate) fn edge(
    out: &mut [u64],
    statuses: [u32; 3],
    ends: &[f64; 4],
    end: u32,
    owner: u32,
) -> usize {
    let mut at = push_list(&mut *out, 0, &statuses, 3);
    at = push_floats(&mut *out, at, ends, 4);
    at = push(&mut *out, at, u64::from(end));
    push(&mut *out, at, u64::from(owner))
}

// A polygon: first point, number of points, box.
pub(crate) fn polygon(out: &mut [u64], status: u32, place: &[u32; 2], b: &[f64; 4]) -> usize {
    let at = two(&mut *out, 0, status, place);
    push_floats(&mut *out, at, b, 4)
}

// The four statuses, bounds, width, height, columns and rows.
pub(crate) fn extent(
    out: &mut [u64],
    statuses: [u32; 4],
    b: &[f64; 4],
    width: f64,
    height: f64,
    dims: &[u32; 2],
) -> usize {
    let mut at = push_list(&mut *out, 0, &statuses, 4);
    at = push_floats(&mut *out, at, b, 4);
    at = push(&mut *out, at, pattern(width));
    at = push(&mut *out, at, pattern(height));
    push_list(&mut *out, at, dims, 2)
}

// Blocked, full, points and visible ids of an outline.
fn shape(out: &mut [u64], at: usize, answer: &[u64; 9]) -> usize {
    let mut next = push(&mut *out, at, answer[0]);
    next = push(&mut *out, next, answer[1]);
    next = push(&mut *out, next, answer[2]);
    push(&mut *out, next, answer[3])
}

// Its candidates, front edges, events, samples and refinements.
fn work(out: &mut [u64], at: usize, answer: &[u64; 9]) -> usize {
    let mut next = push(&mut *out, at, answer[4]);
    next = push(&mut *out, next, answer[5]);
    next = push(&mut *out, next, answer[6]);
    next = push(&mut *out, next, answer[7]);
    push(&mut *out, next, answer[8])
}

// An outline: the nine numbers, the points' numbers, the visible ids. More points or ids than there is room for is no answer.
pub(crate) fn outline(
    out: &mut [u64],
    status: u32,
    answer: &[u64; 9],
    points: &[f64],
    visible: &[u32],
) -> usize {
    let n = answer[2];
    let ids = answer[3];
    if 700 < n || 16 < ids {
        return 0;
    }
    let mut at = push(&mut *out, 0, u64::from(status));
    at = shape(&mut *out, at, answer);
    at = work(&mut *out, at, answer);
    at = push_floats(&mut *out, at, points, n as usize * 2);
    push_list(&mut *out, at, visible, ids as usize)
}
