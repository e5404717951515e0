// 601: a site. The words after the number are width, height, a count and that many numbers of points, a count and that many lengths. The results are the
// status, the head and, where it is 0, the six tables as far as the head's counts say. There is room for 16 polygons, 96 points, 256 cells and 512 items.
ghost use Rattle.std.specs.Prelude.{◌<◌};

use crate::tally::{Place, Tally};
use crate::{call, results, tally};
use lines::input::Line;
use lines::{float, input, narrow, push, push_floats, push_list, word};
use std::io::Read;

// The number of a line that builds a site.
const SITE: u64 = 601;

// 192 numbers of w from word 4 on.
fn given_in(w: &[u64]) -> [f64; 192] {
    let mut given = [0.0; 192];
    for (i, x) in given.iter_mut().enumerate() {
        *x = float(w, i + 4);
    }
    given
}

// 16 words of w from `first` on.
fn lengths_in(w: &[u64], first: usize) -> [u32; 16]
    requires { first < 256 }
{
    let mut lens = [0u32; 16];
    for (i, len) in lens.iter_mut().enumerate() {
        *len = narrow(w, first + i);
    }
    lens
}

// Builds the site of a line of 601; the status. Nothing, where the line builds no site, or one with more points or polygons than there is room for.
fn build(
    w: &[u64],
    points: &mut [f64],
    boxes: &mut [f64],
    polygons: &mut [u32],
    owners: &mut [u32],
    starts: &mut [u32],
    items: &mut [u32],
    head: &mut [f64; 6],
    counts: &mut [u32; 5],
) -> Option<u32> {
    if word(w, 0) != SITE {
        return None;
    }
    let n = word(w, 3);
    if 192 < n {
        return None;
    }
    let end = n as usize;
    let m = word(w, end + 4);
    if 16 < m {
        return None;
    }
    let last = m as usize;
    let given = given_in(w);
    let lens = lengths_in(w, end + 5);
    Some(exports_scene::bf_scene_new(
        float(w, 1),
        float(w, 2),
        &given[..end],
        &lens[..last],
        points,
        boxes,
        polygons,
        owners,
        starts,
        items,
        head,
        counts,
    ))
}

// ---- the answer

// The points and the boxes, as far as the counts say, after the words of out.
fn floats_told(
    out: &mut [u64],
    from: usize,
    counts: &[u32; 5],
    points: &[f64],
    boxes: &[f64],
) -> usize {
    let at = push_floats(&mut *out, from, points, 2 * counts[3] as usize);
    push_floats(&mut *out, at, boxes, 4 * counts[2] as usize)
}

// The polygons, the owners, the starts, one more than there are cells, and the items.
fn numbers_told(
    out: &mut [u64],
    from: usize,
    cells: usize,
    counts: &[u32; 5],
    polygons: &[u32],
    owners: &[u32],
    starts: &[u32],
    items: &[u32],
) -> usize {
    let mut at = push_list(&mut *out, from, polygons, 2 * counts[2] as usize);
    at = push_list(&mut *out, at, owners, counts[3] as usize);
    at = push_list(&mut *out, at, starts, cells);
    at = push(&mut *out, at, u64::from(lists::at(starts, cells)));
    push_list(&mut *out, at, items, counts[4] as usize)
}

// What building answered, as words; how many there are.
fn told(
    status: Option<u32>,
    head: &[f64; 6],
    counts: &[u32; 5],
    points: &[f64],
    boxes: &[f64],
    polygons: &[u32],
    owners: &[u32],
    starts: &[u32],
    items: &[u32],
    out: &mut [u64],
) -> usize {
    let Some(status) = status else {
        return 0;
    };
    let at = results::head(&mut *out, status, head, counts);
    if 0 < status {
        return at;
    }
    let cells = site::cells_of(answers::site_of(head, counts));
    let next = floats_told(&mut *out, at, counts, points, boxes);
    numbers_told(
        &mut *out, next, cells, counts, polygons, owners, starts, items,
    )
}

// ---- the lines of a site

// t with a line of n words counted that asks the site: its last words are to be what our function answers.
fn answered(
    t: Tally,
    head: &[f64; 6],
    counts: &[u32; 5],
    points: &[f64],
    boxes: &[f64],
    polygons: &[u32],
    owners: &[u32],
    starts: &[u32],
    items: &[u32],
    words: &[u64],
    n: usize,
    results: &mut [u64],
) -> Tally {
    let r = call::answer(
        head,
        counts,
        points,
        boxes,
        polygons,
        owners,
        starts,
        items,
        words,
        &mut *results,
    );
    let ok = lines::same_tail(words, n, results, r);
    tally::counted(t, word(words, 0), ok)
}

// Asks the site, line by line, up to the next site's line. The budget is far above any sample, so that the loop ends whatever is read.
fn asked<R: Read>(
    reader: &mut R,
    tally: Tally,
    site: Line,
    head: &[f64; 6],
    counts: &[u32; 5],
    points: &[f64],
    boxes: &[f64],
    polygons: &[u32],
    owners: &[u32],
    starts: &[u32],
    items: &[u32],
    chunk: &mut [u8],
    words: &mut [u64],
    results: &mut [u64],
) -> Place {
    let mut t = tally;
    let mut line = site;
    for _ in 0..1000000 {
        let next = input::read_line(&mut *reader, &mut *chunk, line.at, line.len, &mut *words);
        match next {
            Some(asking) if word(words, 0) != SITE => line = asking,
            _ => {
                return Place {
                    tally: t,
                    line: next,
                };
            }
        }
        t = answered(
            t,
            head,
            counts,
            points,
            boxes,
            polygons,
            owners,
            starts,
            items,
            words,
            line.words,
            &mut *results,
        );
    }
    Place {
        tally: t,
        line: None,
    }
}

// The line of a site that was built, or refused with this status, and then those that ask it.
fn asked_of<R: Read>(
    reader: &mut R,
    status: Option<u32>,
    tally: Tally,
    line: Line,
    head: &[f64; 6],
    counts: &[u32; 5],
    points: &[f64],
    boxes: &[f64],
    polygons: &[u32],
    owners: &[u32],
    starts: &[u32],
    items: &[u32],
    chunk: &mut [u8],
    words: &mut [u64],
    results: &mut [u64],
) -> Place {
    let r = told(
        status,
        head,
        counts,
        points,
        boxes,
        polygons,
        owners,
        starts,
        items,
        &mut *results,
    );
    let ok = lines::same_tail(words, line.words, results, r);
    let t = tally::with_site(tally::counted(tally, word(words, 0), ok));
    asked(
        reader, t, line, head, counts, points, boxes, polygons, owners, starts, items, chunk,
        words, results,
    )
}

// A line of 601 and those that ask its site; what is counted then, and the next site's line.
pub(crate) fn replayed<R: Read>(
    reader: &mut R,
    tally: Tally,
    line: Line,
    chunk: &mut [u8],
    words: &mut [u64],
    results: &mut [u64],
) -> Place {
    let mut head = [0.0; 6];
    let mut counts = [0u32; 5];
    let mut points = [0.0; 192];
    let mut boxes = [0.0; 64];
    let mut polygons = [0u32; 32];
    let mut owners = [0u32; 96];
    let mut starts = [0u32; 257];
    let mut items = [0u32; 512];
    let status = build(
        words,
        &mut points,
        &mut boxes,
        &mut polygons,
        &mut owners,
        &mut starts,
        &mut items,
        &mut head,
        &mut counts,
    );
    asked_of(
        reader, status, tally, line, &head, &counts, &points, &boxes, &polygons, &owners, &starts,
        &items, chunk, words, results,
    )
}
