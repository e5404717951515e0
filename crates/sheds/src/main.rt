// Both sheds deserve the credit (document 02, Q-3), as an example that runs: two sheds from one front wall, 5 and 9 deep, and a post before it. By the Rust's
// rule, mode 0, the shed that was given first has the credit, whichever that is. In mode 1 both have it, in either order. What it prints is compared with the
// file `stdout` beside src/. The same two texts for the text program, which keeps to mode 0: examples/one-wall.wkt and examples/one-wall-turned.wkt.
#![tactic(auto)]

use cone::ViewCone;
use geom::Vec2;
use room::Rooms;
use scene::Scene;
use site::SiteTables;
use std::io;

// How deep the first of the two sheds is, and the second.
#[derive(Clone, Copy)]
struct Depths {
    first: f64,
    second: f64,
}

// A shed by how deep it is. Id 0 is the one that was given first.
fn print_shed(rt: &impl Print, id: u32, depths: Depths) -> io::Result<()> {
    let depth = if id == 0 { depths.first } else { depths.second };
    print!(rt; " the one {} deep", num::to_u64(depth))
}

// The first n of the two ids.
fn print_seen(rt: &impl Print, visible: &[u32; 2], n: usize, depths: Depths) -> io::Result<()> {
    if n == 0 {
        return println!(rt; " none");
    }
    print_shed(rt, visible[0], depths)?;
    if n == 2 {
        print!(rt; " and")?;
        print_shed(rt, visible[1], depths)?;
    }
    println!(rt)
}

// What stands for the entries of each list: enough for two sheds.
fn rooms() -> Rooms {
    Rooms {
        ids: 2,
        edges: 4,
        events: 16,
        corners: 8,
        samples: 128,
        starts: 257,
        refs: 512,
        owners: 16,
        seen: 8,
    }
}

// Who is seen from the post (4, -6), all around, as far as 40, in a mode.
fn show_seen(rt: &impl Print, mode: u32, depths: Depths, scene: Scene) -> io::Result<()> {
    let mut marks = [0u32; 2];
    let mut epoch: u32 = 0;
    let mut floats = [0.0; 572];
    let mut words = [0u32; 1687];
    let mut outline = [0.0; 256];
    let mut visible = [0u32; 2];
    let r = visibility::compute_visibility(
        scene,
        ViewCone::full(Vec2 { x: 4.0, y: -6.0 }, 40.0),
        visibility::default_tolerance(),
        mode,
        rooms(),
        &mut marks,
        &mut epoch,
        &mut floats,
        &mut words,
        &mut outline,
        &mut visible,
    );
    print!(rt; "    mode {mode}")?;
    match r {
        Ok(s) => {
            print!(rt; " credits")?;
            print_seen(rt, &visible, s.visible, depths)
        }
        Err(refusal) => println!(rt; " is refused as {}", u32::from(refusal)),
    }
}

// Asks in both modes, and in one that there is not.
fn ask(rt: &impl Print, depths: Depths, scene: Scene) -> io::Result<()> {
    show_seen(rt, 0, depths, scene)?;
    show_seen(rt, 1, depths, scene)?;
    show_seen(rt, 2, depths, scene)
}

// The two sheds in this order.
fn show_sheds(rt: &impl Print, depths: Depths) -> io::Result<()> {
    let given = [
        0.0,
        0.0,
        8.0,
        0.0,
        8.0,
        depths.first,
        0.0,
        depths.first,
        0.0,
        0.0,
        8.0,
        0.0,
        8.0,
        depths.second,
        0.0,
        depths.second,
    ];
    let lens = [4u32; 2];
    let mut points = [0.0; 16];
    let mut boxes = [0.0; 8];
    let mut polygons = [0u32; 4];
    let mut owners = [0u32; 8];
    let mut starts = [0u32; 17];
    let mut items = [0u32; 32];
    let first = num::to_u64(depths.first);
    let second = num::to_u64(depths.second);
    println!(rt; "first the one {first} deep, then the one {second} deep:")?;
    let r = build::new(
        0.0,
        0.0,
        &given,
        &lens,
        &mut points,
        &mut boxes,
        &mut polygons,
        &mut owners,
        &mut starts,
        &mut items,
    );
    match r {
        Err(_) => println!(rt; "    the site is refused"),
        Ok(site) => {
            let scene = Scene {
                site,
                tables: SiteTables {
                    points: &points,
                    boxes: &boxes,
                    polygons: &polygons,
                    owners: &owners,
                    starts: &starts,
                    items: &items,
                },
            };
            ask(rt, depths, scene)
        }
    }
}

fn main(rt: HostRuntime) -> io::Result<()> {
    show_sheds(
        &rt,
        Depths {
            first: 5.0,
            second: 9.0,
        },
    )?;
    show_sheds(
        &rt,
        Depths {
            first: 9.0,
            second: 5.0,
        },
    )
}
