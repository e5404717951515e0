// The samples of document 01 that belong to sites and posts, run: builds each site into lent tables, asks, and prints a line for each sample.
// What it prints is compared with the file `stdout` beside src/. That P1 to P10 are so is also proved: specs/Samples.antt and proofs/SamplesHold.antt.
#![tactic(auto)]

use cone::ViewCone;
use geom::{Aabb, Vec2};
use refusal::Refusal;
use rng::Rng;
use room::Rooms;
use scene::Scene;
use site::{RayHit, Site, SiteTables};
use stages::Shown;
use std::{fmt, io};

// ---- printing

// A float with one decimal, cut off.
#[derive(Clone, Copy)]
struct Tenths(f64);

impl fmt::Display for Tenths {
    fn fmt<W: fmt::Write>(&self, f: &mut fmt::Formatter<W>) -> fmt::Result {
        if self.0 < 0.0 {
            write!(f, "-")?;
        }
        let n = num::to_u64(self.0.abs() * 10.0);
        write!(f, "{}.{}", n / 10, n % 10)
    }
}

fn print_refused(rt: &impl Print, refusal: Refusal) -> io::Result<()> {
    println!(rt; "refused as {}", u32::from(refusal))
}

// ---- what is asked of a site

// Cell, columns, rows and items.
fn show_head(rt: &impl Print, text: &str, site: Site) -> io::Result<()> {
    let grid = site.grid;
    println!(rt;
        "{text}cell {}, columns {}, rows {}, items {}",
        Tenths(grid.cell),
        grid.cols,
        grid.rows,
        site.items
    )
}

// The box query, in room for two ids, with one mark and this epoch before it.
fn show_near(
    rt: &impl Print,
    text: &str,
    scene: Scene,
    b: Aabb,
    mark: u32,
    before: u32,
) -> io::Result<()> {
    let mut marks = [mark; 2];
    let mut epoch = before;
    let mut ids = [0u32; 2];
    let r = scene.polygons_near(b, &mut marks, &mut epoch, &mut ids);
    print!(rt; "{text}")?;
    match r {
        Err(refusal) => print_refused(rt, refusal),
        Ok(l) => {
            print!(rt; "lists")?;
            for id in ids.iter().take(l.written) {
                print!(rt; " {id}")?;
            }
            println!(rt; ", reads {}, epoch {epoch}", l.read)
        }
    }
}

fn show_at(rt: &impl Print, text: &str, scene: Scene, p: Vec2) -> io::Result<()> {
    print!(rt; "{text}")?;
    match scene.polygon_at(p) {
        Err(refusal) => print_refused(rt, refusal),
        Ok(None) => println!(rt; "nobody"),
        Ok(Some(id)) => println!(rt; "polygon {id}"),
    }
}

fn show_cast(rt: &impl Print, hit: Option<RayHit>) -> io::Result<()> {
    match hit {
        None => print!(rt; "a miss"),
        Some(h) => print!(rt; "edge {} at {}", h.edge, Tenths(h.t)),
    }
}

// The ray from o along (1, 0), length 100, in mode 0.
fn show_ray(rt: &impl Print, text: &str, scene: Scene, o: Vec2) -> io::Result<()> {
    let d = Vec2 { x: 1.0, y: 0.0 };
    print!(rt; "{text}")?;
    match scene.cast_ray(o, d, 100.0, 0) {
        Err(refusal) => print_refused(rt, refusal),
        Ok(seen) => {
            show_cast(rt, seen.hit)?;
            println!(rt; ", cells {}", seen.cells)
        }
    }
}

// The entries of each work list; the floats and words of `show_post` are what these take.
fn rooms() -> Rooms {
    Rooms {
        ids: 2,
        edges: 4,
        events: 16,
        corners: 8,
        samples: 128,
        starts: 257,
        refs: 512,
        owners: 16,
        seen: 8,
    }
}

fn show_shown(rt: &impl Print, s: Shown) -> io::Result<()> {
    if s.blocked {
        return println!(rt; "blocked");
    }
    if s.points == 0 {
        return println!(rt; "empty");
    }
    let kind = if s.full { "full" } else { "a sector" };
    println!(rt; "{kind}, points {}", s.points)
}

// The outline of this cone, tolerance 0.1, in room for 128 points and two ids.
fn show_post(rt: &impl Print, text: &str, scene: Scene, cone: ViewCone) -> io::Result<()> {
    let mut marks = [0u32; 2];
    let mut epoch: u32 = 0;
    let mut floats = [0.0; 572];
    let mut words = [0u32; 1687];
    let mut outline = [0.0; 256];
    let mut visible = [0u32; 2];
    let r = visibility::compute_visibility(
        scene,
        cone,
        visibility::default_tolerance(),
        0,
        rooms(),
        &mut marks,
        &mut epoch,
        &mut floats,
        &mut words,
        &mut outline,
        &mut visible,
    );
    print!(rt; "{text}")?;
    match r {
        Err(refusal) => print_refused(rt, refusal),
        Ok(s) => show_shown(rt, s),
    }
}

// ---- the samples

// The box from (low, low) to (high, high).
fn box_of(low: f64, high: f64) -> Aabb {
    Aabb {
        min: Vec2 { x: low, y: low },
        max: Vec2 { x: high, y: high },
    }
}

// What is asked of site A: P1, P2, P3, P8, P9 and P10.
fn ask_a(rt: &impl Print, scene: Scene) -> io::Result<()> {
    let p2 = box_of(5.0, 6.0);
    show_head(rt, "P1 ", scene.site)?;
    show_near(rt, "P2 ", scene, p2, 0, 0)?;
    let p3 = box_of(6.0, 7.0);
    show_near(rt, "P3 ", scene, p3, 0, 0)?;
    let p8 = Vec2 { x: 0.5, y: 3.0 };
    show_ray(rt, "P8 ", scene, p8)?;
    let p9 = Vec2 { x: 0.5, y: 0.5 };
    show_ray(rt, "P9 ", scene, p9)?;
    // the mark 1 of long ago is cleared as the epoch wraps
    show_near(rt, "P10 ", scene, p2, 1, 4294967295)
}

// A cone from (x, y) along (1, 0).
fn cone_at(x: f64, y: f64, range: f64, view: f64) -> ViewCone {
    ViewCone::sector(Vec2 { x, y }, range, 0.0, view)
}

// Run: posts on site A, the whole way round.
fn ask_posts(rt: &impl Print, scene: Scene) -> io::Result<()> {
    show_post(
        rt,
        "post (2, 3), range 5: ",
        scene,
        cone_at(2.0, 3.0, 5.0, 7.0),
    )?;
    show_post(
        rt,
        "post (4, 3), range 5: ",
        scene,
        cone_at(4.0, 3.0, 5.0, 7.0),
    )?;
    show_post(
        rt,
        "post (1, 1), range 0: ",
        scene,
        cone_at(1.0, 1.0, 0.0, 7.0),
    )?;
    show_post(
        rt,
        "post (1000000, 1), range 5: ",
        scene,
        cone_at(1000000.0, 1.0, 5.0, 7.0),
    )?;
    show_post(
        rt,
        "post (1000001, 1), range 5: ",
        scene,
        cone_at(1000001.0, 1.0, 5.0, 7.0),
    )
}

// Run: views from (1, 1) on site A, range 5.
fn ask_views(rt: &impl Print, scene: Scene) -> io::Result<()> {
    show_post(
        rt,
        "view 1e-9: ",
        scene,
        cone_at(1.0, 1.0, 5.0, 0.000000001),
    )?;
    show_post(
        rt,
        "view 2e-9: ",
        scene,
        cone_at(1.0, 1.0, 5.0, 0.000000002),
    )?;
    show_post(
        rt,
        "view 6.2831853062: ",
        scene,
        cone_at(1.0, 1.0, 5.0, 6.2831853062),
    )?;
    show_post(
        rt,
        "view 6.2831853061: ",
        scene,
        cone_at(1.0, 1.0, 5.0, 6.2831853061),
    )
}

// The samples to prove, or those about posts, which are only run.
fn ask(rt: &impl Print, posts: bool, scene: Scene) -> io::Result<()> {
    if posts {
        ask_posts(rt, scene)?;
        return ask_views(rt, scene);
    }
    ask_a(rt, scene)
}

// Site A: 10 by 10, one square.
fn site_a(rt: &impl Print, posts: bool) -> io::Result<()> {
    let given = [2.0, 2.0, 4.0, 2.0, 4.0, 4.0, 2.0, 4.0];
    let lens = [4u32; 1];
    let mut points = [0.0; 8];
    let mut boxes = [0.0; 4];
    let mut polygons = [0u32; 2];
    let mut owners = [0u32; 4];
    let mut starts = [0u32; 37];
    let mut items = [0u32; 4];
    let r = build::new(
        10.0,
        10.0,
        &given,
        &lens,
        &mut points,
        &mut boxes,
        &mut polygons,
        &mut owners,
        &mut starts,
        &mut items,
    );
    match r {
        Err(refusal) => print_refused(rt, refusal),
        Ok(site) => {
            let scene = Scene {
                site,
                tables: SiteTables {
                    points: &points,
                    boxes: &boxes,
                    polygons: &polygons,
                    owners: &owners,
                    starts: &starts,
                    items: &items,
                },
            };
            ask(rt, posts, scene)
        }
    }
}

// P4.
fn ask_twice(rt: &impl Print, scene: Scene) -> io::Result<()> {
    let whole = box_of(0.0, 10.0);
    show_near(rt, "P4 ", scene, whole, 0, 0)?;
    let p = Vec2 { x: 3.0, y: 3.0 };
    show_at(rt, "P4 ", scene, p)
}

// The square twice.
fn site_twice(rt: &impl Print) -> io::Result<()> {
    let given = [
        2.0, 2.0, 4.0, 2.0, 4.0, 4.0, 2.0, 4.0, 2.0, 2.0, 4.0, 2.0, 4.0, 4.0, 2.0, 4.0,
    ];
    let lens = [4u32; 2];
    let mut points = [0.0; 16];
    let mut boxes = [0.0; 8];
    let mut polygons = [0u32; 4];
    let mut owners = [0u32; 8];
    let mut starts = [0u32; 37];
    let mut items = [0u32; 8];
    let r = build::new(
        10.0,
        10.0,
        &given,
        &lens,
        &mut points,
        &mut boxes,
        &mut polygons,
        &mut owners,
        &mut starts,
        &mut items,
    );
    match r {
        Err(refusal) => print_refused(rt, refusal),
        Ok(site) => {
            let scene = Scene {
                site,
                tables: SiteTables {
                    points: &points,
                    boxes: &boxes,
                    polygons: &polygons,
                    owners: &owners,
                    starts: &starts,
                    items: &items,
                },
            };
            ask_twice(rt, scene)
        }
    }
}

// A site of one polygon or none in small room, its stored points left in `points`.
fn build_small(
    width: f64,
    height: f64,
    given: &[f64],
    lens: &[u32],
    points: &mut [f64],
) -> Result<Site, Refusal> {
    let mut boxes = [0.0; 4];
    let mut polygons = [0u32; 2];
    let mut owners = [0u32; 4];
    let mut starts = [0u32; 37];
    let mut items = [0u32; 4];
    build::new(
        width,
        height,
        given,
        lens,
        points,
        &mut boxes,
        &mut polygons,
        &mut owners,
        &mut starts,
        &mut items,
    )
}

// P5: no polygons, 10 by 4.
fn site_bare(rt: &impl Print) -> io::Result<()> {
    let mut points = [0.0; 8];
    match build_small(10.0, 4.0, &[], &[], &mut points) {
        Err(refusal) => print_refused(rt, refusal),
        Ok(site) => show_head(rt, "P5 ", site),
    }
}

// P6: four points the wrong way round, and how they are stored.
fn site_turned(rt: &impl Print) -> io::Result<()> {
    let given = [0.0, 0.0, 0.0, 2.0, 2.0, 2.0, 2.0, 0.0];
    let lens = [4u32; 1];
    let mut points = [0.0; 8];
    print!(rt; "P6 area {}", Tenths(geom::signed_area(&given)))?;
    match build_small(10.0, 10.0, &given, &lens, &mut points) {
        Err(refusal) => print_refused(rt, refusal),
        Ok(site) => {
            print!(rt; ", stored")?;
            for p in points.chunks_exact(2) {
                print!(rt; " ({}, {})", Tenths(p[0]), Tenths(p[1]))?;
            }
            println!(rt)
        }
    }
}

// P7.
fn draw(rt: &impl Print) -> io::Result<()> {
    let mut rng = Rng::new(1);
    let value = rng.range(5, 5);
    println!(rt; "P7 range {value}")
}

// Run: a triangle that reaches to this coordinate.
fn reach(rt: &impl Print, text: &str, far: f64) -> io::Result<()> {
    let given = [0.0, 0.0, far, 0.0, far, 1.0];
    let lens = [3u32; 1];
    let mut points = [0.0; 8];
    print!(rt; "{text}")?;
    match build_small(10.0, 10.0, &given, &lens, &mut points) {
        Err(refusal) => print_refused(rt, refusal),
        Ok(_) => println!(rt; "taken"),
    }
}

fn main(rt: HostRuntime) -> io::Result<()> {
    site_a(&rt, false)?;
    site_twice(&rt)?;
    site_bare(&rt)?;
    site_turned(&rt)?;
    draw(&rt)?;
    reach(&rt, "coordinate 1000000 ", 1000000.0)?;
    reach(&rt, "coordinate 1000001 ", 1000001.0)?;
    site_a(&rt, true)
}
