// Cones, entries and answers as plain numbers.
ghost use Rattle.std.specs.Prelude.{◌≡◌};
ghost use Rattle.cone.specs.Outline.{outline_points};
ghost use Rattle.visibility.specs.Numbers.{nine_of};
ghost use Rattle.exports_view.specs.Numbers.{cone_of, rooms_of};

use cone::ViewCone;
use geom::Vec2;
use refusal::Refusal;
use room::Rooms;
use stages::Shown;

// The post's x and y, its range, direction and opening angle.
pub fn cone_of(c: &[f64; 5]) -> ViewCone
    ensures { result ≡ cone_of c.now }
{
    ViewCone {
        origin: Vec2 { x: c[0], y: c[1] },
        range: c[2],
        direction: c[3],
        fov: c[4],
    }
}

// The entries of each list, in document 01's order.
pub fn rooms_of(k: &[u32; 9]) -> Rooms
    ensures { result ≡ rooms_of k.now }
{
    Rooms {
        ids: k[0],
        edges: k[1],
        events: k[2],
        corners: k[3],
        samples: k[4],
        starts: k[5],
        refs: k[6],
        owners: k[7],
        seen: k[8],
    }
}

// Blocked, full, points, visible ids, candidates, front edges, events, samples, refinements.
pub fn put_shown(out: &mut [u64; 9], a: Result<Shown, Refusal>)
    ensures { out.new ≡ nine_of a }
{
    *out = match a {
        Ok(s) => [
            s.blocked as u64,
            s.full as u64,
            s.points as u64,
            s.visible as u64,
            s.candidates as u64,
            s.front_edges as u64,
            s.events as u64,
            s.rays_cast as u64,
            s.refinements as u64,
        ],
        Err(_) => [0, 0, 0, 0, 0, 0, 0, 0, 0],
    };
}

// How many points, 0 on refusal.
pub fn outline_points(a: Result<usize, Refusal>) -> u64
    ensures { result ≡ outline_points a }
{
    match a {
        Ok(n) => n as u64,
        Err(_) => 0,
    }
}
