// The stages of an outline over its candidates: front edges, merged events, the index, the rays, the sweep, the answer (`visibility.rs`, lines 265 to 518). Each
// stage writes its own stretch of the lent room. A list that would pass its entries makes the answer a refusal 8. The box query before them and the
// zeroing after them are crate `view`, the tests crate `visibility`. Inner functions: what they ask of the room their caller has tested.
// Meanings: specs/Drawing.antt (the stages), specs/Shows.antt (what an answer shows), specs/Held.antt (what stands in the room).
#![tactic(auto)]

ghost use Rattle.std.specs.Prelude.{◌≡◌, [], ◌≤◌, length, take};
ghost use Rattle.lists.specs.Parts.{part};
ghost use Rattle.room.specs.Layout.{seen_w, words_for};
ghost use Rattle.room.specs.Records.{edges_in, Noted};
ghost use Rattle.fan.specs.Fan.{fan_of, Ready};
ghost use Rattle.events.specs.Held.{spots_in};
ghost use Rattle.sweep.specs.Sweep.{Spared};
ghost use Rattle.stages.specs.Drawing.{request, plain, circle_by, spotted, staged_of};
ghost use Rattle.stages.specs.Shows.{Shows};
ghost use Rattle.stages.specs.Held.{Gathered, Standing, Casted, run_in, Traced};

use cone::{View, ViewCone};
use index::AngularIndex;
use refusal::Refusal;
use room::Rooms;
use site::SiteTables;

// An outline: whether the post is blocked, whether the cone is full, how many points and visible ids stand in the output slices, and the counts of the
// Rust's statistics.
#[derive(Clone, Copy)]
pub struct Shown {
    pub blocked: bool,
    pub full: bool,
    pub points: usize,
    pub visible: usize,
    pub candidates: usize,
    pub front_edges: usize,
    pub events: usize,
    pub rays_cast: usize,
    pub refinements: usize,
}

// What the candidates come to: a list is over, the post stands on an edge, or their front edges and merged events are found.
#[derive(Clone, Copy)]
enum Gathering {
    Over,
    Touching,
    Found {
        candidates: usize,
        edges: usize,
        events: usize,
    },
}

// The index of the edges, and how many rays are cast.
#[derive(Clone, Copy)]
struct Casting {
    index: AngularIndex,
    samples: usize,
}

// What the sweep leaves in the output slices.
#[derive(Clone, Copy)]
struct Tracing {
    points: usize,
    visible: usize,
    refinements: usize,
}

// ---- the stages

// The front edges of the n candidates in front of the words, and their events merged.
fn gather(
    k: Rooms,
    view: View,
    tables: &SiteTables,
    n: usize,
    floats: &mut [f64],
    words: &mut [u32],
) -> Gathering
    requires { Ready k tables.now.polygons.now n floats.old words.old }
    ensures { Gathered k view (fan_of view tables.now.points.now tables.now.boxes.now tables.now.polygons.now (take n words.old)) result floats.new words.new }
{
    let f = fan::front_edges(k, view, tables, n, &mut *floats, &mut *words);
    if f.over {
        return Gathering::Over;
    }
    if f.touch {
        return Gathering::Touching;
    }
    let m = events::merge_events(k, view.full, view.fov, f.events as u32, floats, words);
    if m.over {
        return Gathering::Over;
    }
    Gathering::Found {
        candidates: f.candidates,
        edges: f.edges,
        events: m.events,
    }
}

// The index of the edges, and the rays of the merged events; none where a list is over.
fn cast_rays(
    k: Rooms,
    view: View,
    edges: usize,
    events: usize,
    floats: &mut [f64],
    words: &mut [u32],
    mode: u32,
) -> Option<Casting>
    requires { Standing k edges events floats.old words.old }
    ensures { Casted mode k view (edges_in k floats.old words.old edges) (spots_in k floats.old words.old events) result floats.new words.new }
{
    let b = index::build(mode, k, edges, view.fov, &*floats, &mut *words);
    if b.over {
        return None;
    }
    let index = b.index;
    let r = rays::sample_rays(k, view, index, events as u32, floats, words);
    if r.over {
        return None;
    }
    Some(Casting {
        index,
        samples: r.samples,
    })
}

// The outline of the n rays, and the ids of the polygons seen, rising; none where a list is over.
fn trace(
    k: Rooms,
    x: AngularIndex,
    view: View,
    step: f64,
    n: u32,
    tables: &SiteTables,
    floats: &[f64],
    words: &mut [u32],
    outline: &mut [f64],
    visible: &mut [u32],
) -> Option<Tracing>
    requires { (words_for k ≤ length words.old) × Noted k view.start (Spared k x floats.now (part 0 (seen_w k) words.old) tables.now.owners.now view) floats.now (part 0 (seen_w k) words.old) n }
    ensures { Traced (run_in k x floats.now words.old view step tables.now.points.now tables.now.polygons.now tables.now.owners.now n (length outline.old)) (length visible.old) result outline.new visible.new }
{
    let mut marks = [0u8; 4096];
    lists::clear(&mut *outline);
    let t = sweep::sweep(
        k, x, floats, tables, words, outline, &mut marks, view, step, n,
    );
    let ids = sorts::list_marked(&marks, &mut *visible);
    if t.over || visible.len() < ids {
        return None;
    }
    Some(Tracing {
        points: t.points,
        visible: ids,
        refinements: t.refinements,
    })
}

// ---- the answer

// The cone's own outline, where nothing stands in a full circle.
fn circle(
    cone: ViewCone,
    tolerance: f64,
    candidates: usize,
    edges: usize,
    outline: &mut [f64],
) -> Result<Shown, Refusal>
    ensures { Shows (circle_by cone tolerance candidates edges (length outline.old)) result outline.new [] }
{
    let n = cone.draw(tolerance, &mut *outline);
    if outline.len() / 2 < n {
        return Err(Refusal::NoListRoom);
    }
    Ok(Shown {
        blocked: false,
        full: cone.is_full(),
        points: n,
        visible: 0,
        candidates,
        front_edges: edges,
        events: 0,
        rays_cast: 0,
        refinements: 0,
    })
}

// From the edges and merged events that stand in the room to the outline.
fn sweep_events(
    k: Rooms,
    cone: ViewCone,
    tolerance: f64,
    candidates: usize,
    edges: usize,
    events: usize,
    tables: &SiteTables,
    floats: &mut [f64],
    words: &mut [u32],
    outline: &mut [f64],
    visible: &mut [u32],
    mode: u32,
) -> Result<Shown, Refusal>
    requires { Standing k edges events floats.old words.old }
    ensures { Shows (spotted (request k tables.now.points.now tables.now.polygons.now tables.now.owners.now cone tolerance mode (length outline.old) (length visible.old))
        candidates (edges_in k floats.old words.old edges) (spots_in k floats.old words.old events)) result outline.new visible.new }
{
    if events == 0 {
        return circle(cone, tolerance, candidates, edges, outline);
    }
    let view = cone::view_of(cone);
    let Some(c) = cast_rays(k, view, edges, events, &mut *floats, &mut *words, mode) else {
        return Err(Refusal::NoListRoom);
    };
    let step = cone::arc_step(view.r, tolerance);
    let Some(t) = trace(
        k,
        c.index,
        view,
        step,
        c.samples as u32,
        tables,
        floats,
        words,
        outline,
        visible,
    ) else {
        return Err(Refusal::NoListRoom);
    };
    Ok(Shown {
        blocked: false,
        full: view.full,
        points: t.points,
        visible: t.visible,
        candidates,
        front_edges: edges,
        events,
        rays_cast: c.samples,
        refinements: t.refinements,
    })
}

// An answer with zero counts.
pub fn plain(blocked: bool, full: bool) -> Result<Shown, Refusal>
    ensures { result ≡ (plain blocked full).answer }
{
    Ok(Shown {
        blocked,
        full,
        points: 0,
        visible: 0,
        candidates: 0,
        front_edges: 0,
        events: 0,
        rays_cast: 0,
        refinements: 0,
    })
}

// The stages over the n candidates in front of the words.
pub fn staged(
    k: Rooms,
    cone: ViewCone,
    tolerance: f64,
    n: usize,
    tables: &SiteTables,
    floats: &mut [f64],
    words: &mut [u32],
    outline: &mut [f64],
    visible: &mut [u32],
    mode: u32,
) -> Result<Shown, Refusal>
    requires { Ready k tables.now.polygons.now n floats.old words.old }
    ensures { Shows (staged_of (request k tables.now.points.now tables.now.polygons.now tables.now.owners.now cone tolerance mode (length outline.old) (length visible.old))
        tables.now.boxes.now (take n words.old)) result outline.new visible.new }
{
    let view = cone::view_of(cone);
    let g = gather(k, view, tables, n, &mut *floats, &mut *words);
    match g {
        Gathering::Over => Err(Refusal::NoListRoom),
        Gathering::Touching => plain(true, view.full),
        Gathering::Found {
            candidates,
            edges,
            events,
        } => sweep_events(
            k, cone, tolerance, candidates, edges, events, tables, floats, words, outline, visible,
            mode,
        ),
    }
}
