// Questions to a site: 602 to 608, in the order of `scene.rs`, 609, the box query by points and polygons alone, and 703, a ray in a mode. The words after the number are
// the arguments. There is room for 16 ids; over that is no answer.
use crate::results;
use lines::{float, narrow, push, word};

// The room for ids that the program has.
const IDS: u64 = 16;

// The box query at b, with marks that are all zero before.
fn near(
    head: &[f64; 6],
    counts: &[u32; 5],
    points: &[f64],
    boxes: &[f64],
    polygons: &[u32],
    owners: &[u32],
    starts: &[u32],
    items: &[u32],
    b: &[f64; 4],
    before: u32,
    ids: &mut [u32],
    out: &mut [u64],
) -> usize {
    let mut marks = [0u32; 16];
    let mut epoch = before;
    let mut tally = [0u64; 2];
    let status = exports_scene::bf_scene_polygons_near(
        head, counts, points, boxes, polygons, owners, starts, items, b, &mut marks, &mut epoch,
        &mut *ids, &mut tally,
    );
    results::near(out, status, &tally, epoch, ids)
}

// 602: four numbers of a box, the epoch, the room for ids.
fn answer_near(
    head: &[f64; 6],
    counts: &[u32; 5],
    points: &[f64],
    boxes: &[f64],
    polygons: &[u32],
    owners: &[u32],
    starts: &[u32],
    items: &[u32],
    w: &[u64],
    out: &mut [u64],
) -> usize {
    let k = word(w, 6);
    if IDS < k {
        return 0;
    }
    let room = k as usize;
    let b = [float(w, 1), float(w, 2), float(w, 3), float(w, 4)];
    let mut ids = [0u32; 16];
    near(
        head,
        counts,
        points,
        boxes,
        polygons,
        owners,
        starts,
        items,
        &b,
        narrow(w, 5),
        &mut ids[..room],
        out,
    )
}

// The box query at b, by points and polygons alone.
fn near_plain(
    head: &[f64; 6],
    counts: &[u32; 5],
    points: &[f64],
    polygons: &[u32],
    b: &[f64; 4],
    ids: &mut [u32],
    out: &mut [u64],
) -> usize {
    let mut tally = [0u64; 2];
    let status = exports_scene::bf_scene_polygons_near_plain(
        head, counts, points, polygons, b, &mut *ids, &mut tally,
    );
    results::near_plain(out, status, &tally, ids)
}

// 609: four numbers of a box, the room for ids.
fn answer_near_plain(
    head: &[f64; 6],
    counts: &[u32; 5],
    points: &[f64],
    polygons: &[u32],
    w: &[u64],
    out: &mut [u64],
) -> usize {
    let k = word(w, 5);
    if IDS < k {
        return 0;
    }
    let room = k as usize;
    let b = [float(w, 1), float(w, 2), float(w, 3), float(w, 4)];
    let mut ids = [0u32; 16];
    near_plain(head, counts, points, polygons, &b, &mut ids[..room], out)
}

// 603: a point.
fn answer_at(
    head: &[f64; 6],
    counts: &[u32; 5],
    points: &[f64],
    boxes: &[f64],
    polygons: &[u32],
    owners: &[u32],
    starts: &[u32],
    items: &[u32],
    w: &[u64],
    out: &mut [u64],
) -> usize {
    let mut found = [0u32; 2];
    let status = exports_scene::bf_scene_polygon_at(
        head,
        counts,
        points,
        boxes,
        polygons,
        owners,
        starts,
        items,
        float(w, 1),
        float(w, 2),
        &mut found,
    );
    results::two(out, 0, status, &found)
}

// A ray in a mode.
fn answer_cast(
    head: &[f64; 6],
    counts: &[u32; 5],
    points: &[f64],
    boxes: &[f64],
    polygons: &[u32],
    owners: &[u32],
    starts: &[u32],
    items: &[u32],
    ray: &[f64; 5],
    mode: u32,
    out: &mut [u64],
) -> usize {
    let mut t = 0.0;
    let mut found = [0u64; 3];
    let status = exports_scene::bf_scene_cast_ray(
        head, counts, points, boxes, polygons, owners, starts, items, ray[0], ray[1], ray[2],
        ray[3], ray[4], mode, &mut t, &mut found,
    );
    results::look(out, status, t, &found)
}

// 604: origin, direction, length; in mode 0.
fn answer_ray(
    head: &[f64; 6],
    counts: &[u32; 5],
    points: &[f64],
    boxes: &[f64],
    polygons: &[u32],
    owners: &[u32],
    starts: &[u32],
    items: &[u32],
    w: &[u64],
    out: &mut [u64],
) -> usize {
    let ray = [
        float(w, 1),
        float(w, 2),
        float(w, 3),
        float(w, 4),
        float(w, 5),
    ];
    answer_cast(
        head, counts, points, boxes, polygons, owners, starts, items, &ray, 0, out,
    )
}

// 703: the mode, origin, direction, length.
pub(crate) fn answer_ray_in_mode(
    head: &[f64; 6],
    counts: &[u32; 5],
    points: &[f64],
    boxes: &[f64],
    polygons: &[u32],
    owners: &[u32],
    starts: &[u32],
    items: &[u32],
    w: &[u64],
    out: &mut [u64],
) -> usize {
    let ray = [
        float(w, 2),
        float(w, 3),
        float(w, 4),
        float(w, 5),
        float(w, 6),
    ];
    answer_cast(
        head,
        counts,
        points,
        boxes,
        polygons,
        owners,
        starts,
        items,
        &ray,
        narrow(w, 1),
        out,
    )
}

// The first n ids of the cell of a point, after the words of out.
fn ids_at(
    head: &[f64; 6],
    counts: &[u32; 5],
    points: &[f64],
    boxes: &[f64],
    polygons: &[u32],
    owners: &[u32],
    starts: &[u32],
    items: &[u32],
    x: f64,
    y: f64,
    n: usize,
    from: usize,
    out: &mut [u64],
) -> usize {
    let mut at = from;
    for i in 0..n {
        let id = exports_scene::bf_scene_item_at(
            head, counts, points, boxes, polygons, owners, starts, items, x, y, i,
        );
        at = push(&mut *out, at, u64::from(id));
    }
    at
}

// 605: a point.
fn answer_items(
    head: &[f64; 6],
    counts: &[u32; 5],
    points: &[f64],
    boxes: &[f64],
    polygons: &[u32],
    owners: &[u32],
    starts: &[u32],
    items: &[u32],
    w: &[u64],
    out: &mut [u64],
) -> usize {
    let x = float(w, 1);
    let y = float(w, 2);
    let mut number: u64 = 0;
    let status = exports_scene::bf_scene_items_at_number(
        head,
        counts,
        points,
        boxes,
        polygons,
        owners,
        starts,
        items,
        x,
        y,
        &mut number,
    );
    if IDS < number {
        return 0;
    }
    let mut at = push(&mut *out, 0, u64::from(status));
    at = push(&mut *out, at, number);
    ids_at(
        head,
        counts,
        points,
        boxes,
        polygons,
        owners,
        starts,
        items,
        x,
        y,
        number as usize,
        at,
        out,
    )
}

// 606: an edge.
fn answer_edge(
    head: &[f64; 6],
    counts: &[u32; 5],
    points: &[f64],
    boxes: &[f64],
    polygons: &[u32],
    owners: &[u32],
    starts: &[u32],
    items: &[u32],
    w: &[u64],
    out: &mut [u64],
) -> usize {
    let e = narrow(w, 1);
    let mut ends = [0.0; 4];
    let mut end: u32 = 0;
    let mut owner: u32 = 0;
    let a = exports_scene::bf_scene_edge(
        head, counts, points, boxes, polygons, owners, starts, items, e, &mut ends,
    );
    let b = exports_scene::bf_scene_edge_end(
        head, counts, points, boxes, polygons, owners, starts, items, e, &mut end,
    );
    let c = exports_scene::bf_scene_edge_owner(
        head, counts, points, boxes, polygons, owners, starts, items, e, &mut owner,
    );
    results::edge(out, [a, b, c], &ends, end, owner)
}

// 607: a polygon.
fn answer_polygon(
    head: &[f64; 6],
    counts: &[u32; 5],
    points: &[f64],
    boxes: &[f64],
    polygons: &[u32],
    owners: &[u32],
    starts: &[u32],
    items: &[u32],
    w: &[u64],
    out: &mut [u64],
) -> usize {
    let mut place = [0u32; 2];
    let mut b = [0.0; 4];
    let status = exports_scene::bf_scene_polygon(
        head,
        counts,
        points,
        boxes,
        polygons,
        owners,
        starts,
        items,
        narrow(w, 1),
        &mut place,
        &mut b,
    );
    results::polygon(out, status, &place, &b)
}

// 608: bounds, width, height, columns and rows.
fn answer_head(
    head: &[f64; 6],
    counts: &[u32; 5],
    points: &[f64],
    boxes: &[f64],
    polygons: &[u32],
    owners: &[u32],
    starts: &[u32],
    items: &[u32],
    out: &mut [u64],
) -> usize {
    let mut b = [0.0; 4];
    let mut width = 0.0;
    let mut height = 0.0;
    let mut dims = [0u32; 2];
    let r = exports_scene::bf_scene_bounds(
        head, counts, points, boxes, polygons, owners, starts, items, &mut b,
    );
    let s = exports_scene::bf_scene_width(
        head, counts, points, boxes, polygons, owners, starts, items, &mut width,
    );
    let t = exports_scene::bf_scene_height(
        head,
        counts,
        points,
        boxes,
        polygons,
        owners,
        starts,
        items,
        &mut height,
    );
    let u = exports_scene::bf_scene_dims(
        head, counts, points, boxes, polygons, owners, starts, items, &mut dims,
    );
    results::extent(out, [r, s, t, u], &b, width, height, &dims)
}

// The answer of the function f, by the words of its line; 0 words where there is no such function.
pub(crate) fn answer(
    f: u64,
    head: &[f64; 6],
    counts: &[u32; 5],
    points: &[f64],
    boxes: &[f64],
    polygons: &[u32],
    owners: &[u32],
    starts: &[u32],
    items: &[u32],
    w: &[u64],
    out: &mut [u64],
) -> usize {
    match f {
        602 => answer_near(
            head, counts, points, boxes, polygons, owners, starts, items, w, out,
        ),
        603 => answer_at(
            head, counts, points, boxes, polygons, owners, starts, items, w, out,
        ),
        604 => answer_ray(
            head, counts, points, boxes, polygons, owners, starts, items, w, out,
        ),
        605 => answer_items(
            head, counts, points, boxes, polygons, owners, starts, items, w, out,
        ),
        606 => answer_edge(
            head, counts, points, boxes, polygons, owners, starts, items, w, out,
        ),
        607 => answer_polygon(
            head, counts, points, boxes, polygons, owners, starts, items, w, out,
        ),
        608 => answer_head(
            head, counts, points, boxes, polygons, owners, starts, items, out,
        ),
        609 => answer_near_plain(head, counts, points, polygons, w, out),
        _ => 0,
    }
}
