// Random sites: `SceneConfig` and `Scene::random` of the Rust's `scene.rs` (lines 53 to 78 and 171 to 196).
// The points are drawn into two lists of the function's own, as long as the largest random site needs them, and then built as any other
// site: so nothing is written into a lent table before the building has decided.
// Meanings: specs/Draws.antt (what is drawn), specs/Outcome.antt (answer and tables), specs/Checks.antt (when it refuses).
#![tactic(auto)]

ghost use Rattle.std.specs.Prelude.{◌≡◌, ◌*◌, ◌≤◌};
ghost use Rattle.std.proofs.lemmas.List.Edits.{sets};
ghost use Rattle.site.specs.Tables.{tables};
ghost use Rattle.build.specs.Outcome.{Does};
ghost use Rattle.random.specs.Draws.{head_of, corner_by, state_at, ring_of, Drawn};
ghost use Rattle.random.specs.Outcome.{default_config, in_random_size, outcome};

use geom::Vec2;
use refusal::Refusal;
use rng::Rng;
use site::Site;

// Settings of a random site.
#[derive(Clone, Copy)]
pub struct SceneConfig {
    pub width: f64,
    pub height: f64,
    // How many polygons.
    pub polygon_count: usize,
    // The same seed gives the same site on every platform.
    pub seed: u64,
}

// The Rust's `SceneConfig::default`.
pub fn default_config() -> SceneConfig
    ensures { result ≡ default_config }
{
    SceneConfig {
        width: 2000.0,
        height: 2000.0,
        polygon_count: 500,
        seed: 0x5eed,
    }
}

const TAU: f64 = 6.283185307179586;

// How many colours there are in the Rust's palette. They are drawn and dropped.
const PALETTE_LEN: u64 = 10;

// What is drawn of a polygon before its points.
#[derive(Clone, Copy)]
struct Head {
    count: u64,
    center: Vec2,
    radius: f64,
}

fn draw_head(config: SceneConfig, rng: &mut Rng) -> Head
    ensures value { result ≡ (head_of config rng.old).value }
    ensures after { rng.new ≡ (head_of config rng.old).rng }
{
    let count = rng.range(3, 9);
    let x = rng.range(0, num::to_u64(config.width));
    let y = rng.range(0, num::to_u64(config.height));
    let radius = rng.range(5, 60);
    Head {
        count,
        center: Vec2 {
            x: std::num::nearest_u64_to_f64(x),
            y: std::num::nearest_u64_to_f64(y),
        },
        radius: std::num::nearest_u64_to_f64(radius),
    }
}

// The point i of the polygon.
fn draw_corner(h: Head, i: u64, rng: &mut Rng) -> Vec2
    ensures value { result ≡ (corner_by h i rng.old).value }
    ensures after { rng.new ≡ (corner_by h i rng.old).rng }
{
    let angle = TAU * std::num::nearest_u64_to_f64(i) / std::num::nearest_u64_to_f64(h.count);
    let reach = h.radius * (0.5 + rng.next_f64());
    h.center.add(Vec2::from_angle(angle).mul(reach))
}

// Draws the polygon's points and writes them from the point `first` on.
fn draw_ring(given: &mut [f64], h: Head, first: usize, rng: &mut Rng)
    requires { (h.count ≤ 8) × (first ≤ 32768) }
    ensures after { rng.new ≡ state_at h rng.old h.count }
    ensures given_after { given.new ≡ sets given.old (2 * first) (ring_of h rng.old h.count) }
{
    for i in 0..h.count {
        let corner = draw_corner(h, i, rng);
        let at = 2 * (first + i as usize);
        lists::put(given, at, corner.x);
        lists::put(given, at + 1, corner.y);
    }
}

// Draws the points of all polygons and writes them and their lengths; how many points there are.
fn draw_polygons(config: SceneConfig, given: &mut [f64], lens: &mut [u32]) -> usize
    requires { config.polygon_count ≤ 4096 }
    ensures { Drawn config result given.old given.new lens.old lens.new }
{
    let mut rng = Rng::new(config.seed);
    let mut first: usize = 0;
    for k in 0..config.polygon_count {
        let h = draw_head(config, &mut rng);
        lists::put(lens, k, h.count as u32);
        draw_ring(given, h, first, &mut rng);
        let _colour = rng.range(0, PALETTE_LEN);
        first += h.count as usize;
    }
    first
}

// Is a random site's width or height in the domain: finite, from 0 to 900,000?
fn in_random_size(x: f64) -> bool
    ensures { result ≡ in_random_size x }
{
    (0.0 <= x) & (x <= 900000.0)
}

// The most polygons that a site may have, and the numbers of their points: eight points of two numbers each at most.
const POLYGONS: usize = 4096;

const NUMBERS: usize = 65536;

// Draws a random site and builds it into the lent tables; the head is answered. Refusals: 2, 1, 4, 5, in this order.
pub fn random(
    config: SceneConfig,
    points: &mut [f64],
    boxes: &mut [f64],
    polygons: &mut [u32],
    owners: &mut [u32],
    starts: &mut [u32],
    items: &mut [u32],
) -> Result<Site, Refusal>
    ensures { Does (outcome config (tables points.old boxes.old polygons.old owners.old starts.old items.old)) result
        (tables points.new boxes.new polygons.new owners.new starts.new items.new) }
{
    let n = config.polygon_count;
    let sizes = in_random_size(config.width) & in_random_size(config.height);
    if POLYGONS < n {
        return Err(Refusal::TooMany);
    }
    if !sizes {
        return Err(Refusal::OutsideDomain);
    }
    let mut given = [0.0; NUMBERS];
    let mut lens = [0u32; POLYGONS];
    let count = draw_polygons(config, &mut given, &mut lens);
    let end = 2 * count;
    build::new(
        config.width,
        config.height,
        &given[..end],
        &lens[..n],
        points,
        boxes,
        polygons,
        owners,
        starts,
        items,
    )
}
