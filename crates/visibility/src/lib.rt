// The outline from a post, and the polygons seen: the Rust's `compute_visibility` (`visibility.rs`, lines 246 to 518) over lent tables and lent room.
// The call requires nothing. It tests, in document 01's order, that the tables are sound (6), that the cone is in the domain and the mode is 0 or 1 (1), and
// that there are enough marks (7); then every list is held to its entries (8). A refusal as 6, 1 or 7 writes nothing; 8 leaves work and output all zero, and the stamps as the
// unrefused call leaves them. Afterwards the work room is zero, and so is the rest of each output list. What comes after the tests is crate `view`.
// Meanings: specs/Asked.antt (the tests), specs/Outcome.antt (the outcome), specs/Numbers.antt (the answer as numbers), specs/Beside.antt (area and
// default tolerance).
#![tactic(auto)]

ghost use Rattle.std.specs.Prelude.{◌≡◌, MatchResult};
ghost use Rattle.site.specs.Tables.{tables_of};
ghost use Rattle.view.specs.Outcome.{lent, out};
ghost use Rattle.visibility.specs.Asked.{admit_of};
ghost use Rattle.visibility.specs.Outcome.{Promise};
ghost use Rattle.visibility.specs.Beside.{area_of, tenth};

use cone::ViewCone;
use refusal::Refusal;
use room::Rooms;
use scene::Scene;
use stages::Shown;

// ---- the tests

// Refuses unsound tables (6), a cone outside the domain or a mode that is neither 0 nor 1 (1), and too few marks (7), in this order.
fn admit(scene: Scene, cone: ViewCone, mode: u32, marks: usize) -> Result<(), Refusal>
    ensures { result ≡ admit_of scene.entry.site (tables_of scene.entry.tables) cone mode marks }
{
    if !site::is_sound(scene.site, scene.tables) {
        return Err(Refusal::Unsound);
    }
    if !cone.in_domain() {
        return Err(Refusal::OutsideDomain);
    }
    if 1 < mode {
        return Err(Refusal::OutsideDomain);
    }
    if marks < scene.site.polygons as usize {
        return Err(Refusal::FewStamps);
    }
    Ok(())
}

// ---- the call

// Computes the visible region and the visible polygons for `cone`, on a site. The mode is 0 for the Rust's rule, and 1 to credit ties: a
// number and no enum, since any other is refused.
pub fn compute_visibility(
    scene: Scene,
    cone: ViewCone,
    tolerance: f64,
    mode: u32,
    k: Rooms,
    marks: &mut [u32],
    epoch: &mut u32,
    floats: &mut [f64],
    words: &mut [u32],
    outline: &mut [f64],
    visible: &mut [u32],
) -> Result<Shown, Refusal>
    ensures { Promise scene.entry.site (tables_of scene.entry.tables) cone tolerance mode k
        (lent marks.old epoch.old floats.old words.old outline.old visible.old)
        (out result (lent marks.new epoch.new floats.new words.new outline.new visible.new)) }
{
    admit(scene, cone, mode, marks.len())?;
    view::seen_from(
        scene.site,
        &scene.tables,
        cone.loaded(),
        site::load(tolerance),
        mode,
        k,
        marks,
        epoch,
        floats,
        words,
        outline,
        visible,
    )
}

// ---- beside the call

// The Rust's `Visibility::area`: the area of an outline.
pub fn area(outline: &[f64]) -> f64
    ensures { result ≡ area_of outline.now }
{
    num::abs(geom::signed_area(outline))
}

// The Rust's `VisibilityOptions::default().arc_tolerance`.
pub fn default_tolerance() -> f64
    ensures { result ≡ tenth }
{
    0.1
}
