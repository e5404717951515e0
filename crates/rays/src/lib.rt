// The rays of an outline: the samples of the merged events, their casts and their order (`visibility.rs`, lines 380 to 417).
// A list that is full is counted on without writing. Meanings: specs/Samples.antt (the samples), specs/Stands.antt (where they stand).
#![tactic(auto)]

ghost use Rattle.std.specs.Prelude.{◌≡◌, [], ◌∷◌, ◌+◌, length};
ghost use Rattle.room.specs.Layout.{Place};
ghost use Rattle.rays.specs.Samples.{step_of, wrap_of, aim_of, aimed, ray_of, rays_of, samples_of};
ghost use Rattle.rays.specs.Stands.{turn_at, Roomy, Emits, Eventful, Answer, Castable, Casts, Sampling, Sampled};

use cone::View;
use geom::Vec2;
use index::AngularIndex;
use room::{ANGLE_EPS, Rooms, Sample};
use site::RayHit;

const TAU: f64 = 6.283185307179586;

// What the sampling answers: how many samples there are, and whether they pass their entries. A flag beside the number and no `Option` around it: the
// number is promised where they pass too (`Sampled`).
#[derive(Clone, Copy)]
pub struct Rays {
    pub samples: usize,
    pub over: bool,
}

// ---- one ray

// -1 before the event, 0 at it, 1 after it.
fn step(offset: u32) -> f64
    ensures { result ≡ step_of offset }
{
    match offset {
        0 => -1.0,
        1 => 0.0,
        _ => 1.0,
    }
}

// An angle of a full circle, brought back past its seam.
fn wrap(angle: f64) -> f64
    ensures { result ≡ wrap_of angle }
{
    if angle < 0.0 {
        return angle + TAU;
    }
    if angle >= TAU {
        return angle - TAU;
    }
    angle
}

// The angle of the ray at an offset from an event, where it lies in the view.
fn aim_at(view: View, event: f64, offset: u32) -> Option<f64>
    ensures { result ≡ aimed (aim_of view event offset) }
{
    let angle = event + step(offset) * ANGLE_EPS;
    if view.full {
        return Some(wrap(angle));
    }
    let kept = (0.0 <= angle) & (angle <= view.fov);
    if kept { Some(angle) } else { None }
}

// ---- the samples

// One sample more behind the n. A full list is counted on.
fn push(k: Rooms, floats: &mut [f64], words: &mut [u32], n: usize, s: Sample) -> usize
    requires { Roomy k floats.old words.old n }
    ensures { Emits k (s ∷ []) n result floats.old words.old floats.new words.new }
{
    if n < k.samples as usize {
        room::put_sample(k, floats, words, n as u32, s);
    }
    n + 1
}

// One ray of the event i, where it lies in the view.
fn emit(
    k: Rooms,
    view: View,
    floats: &mut [f64],
    words: &mut [u32],
    n: usize,
    i: u32,
    event: f64,
    offset: u32,
) -> usize
    requires { Roomy k floats.old words.old n }
    ensures { Emits k (ray_of view i event offset) n result floats.old words.old floats.new words.new }
{
    let Some(angle) = aim_at(view, event, offset) else {
        return n;
    };
    let s = Sample {
        angle,
        event: i,
        offset,
        hit: None,
    };
    push(k, floats, words, n, s)
}

// The rays of the merged event i: one on each side, and an exact one at a sector's side.
fn event_rays(
    k: Rooms,
    view: View,
    floats: &mut [f64],
    words: &mut [u32],
    n: usize,
    i: u32,
) -> usize
    requires { Roomy k floats.old words.old (n + 2) }
    ensures { Emits k (rays_of view i (turn_at k floats.old words.old i)) n result floats.old words.old floats.new words.new }
{
    let e = room::merged_at(k, &*floats, &*words, i);
    let before = emit(k, view, &mut *floats, &mut *words, n, i, e.angle, 0);
    if e.side {
        let at = emit(k, view, &mut *floats, &mut *words, before, i, e.angle, 1);
        return emit(k, view, floats, words, at, i, e.angle, 2);
    }
    emit(k, view, floats, words, before, i, e.angle, 2)
}

// The samples of the merged events, event after event.
fn sample_events(k: Rooms, view: View, events: u32, floats: &mut [f64], words: &mut [u32]) -> usize
    requires { Eventful k floats.old words.old events }
    ensures { Emits k (samples_of view (turn_at k floats.old words.old) events) 0 result floats.old words.old floats.new words.new }
{
    let mut n: usize = 0;
    for i in 0..events {
        n = event_rays(k, view, &mut *floats, &mut *words, n, i);
    }
    n
}

// ---- their answers

// Casts the ray of the sample i. Its direction is kept beside the answer: the sample's point on the outline goes by it. So is a tie: only where there is one has
// the outline to ask who else is to be credited.
fn cast_one(k: Rooms, view: View, x: AngularIndex, floats: &mut [f64], words: &mut [u32], i: u32)
    requires { Place k (length floats.old) (length words.old) k.samples i }
    ensures { Answer k view x i floats.old words.old floats.new words.new }
{
    let s = room::sample_at(k, &*floats, &*words, i);
    let angle = s.angle;
    let dir = Vec2::from_angle(view.start + angle);
    let w = index::walk_at(1e-9, k, x, &*floats, &*words, view.o, angle, dir, view.r);
    let b = w.best;
    room::put_hit(k, &mut *floats, words, i, index::hit_of(b), b.tied);
    room::put_dir(k, floats, i, dir);
}

// Casts the first n samples in turn.
fn cast_all(k: Rooms, view: View, x: AngularIndex, n: u32, floats: &mut [f64], words: &mut [u32])
    requires { Castable k x floats.old words.old n }
    ensures { Casts k view x n floats.old words.old floats.new words.new }
{
    for i in 0..n {
        cast_one(k, view, x, &mut *floats, &mut *words, i);
    }
}

// The samples of the merged events, cast and in order of angle. Where they pass their entries they are only counted.
pub fn sample_rays(
    k: Rooms,
    view: View,
    x: AngularIndex,
    events: u32,
    floats: &mut [f64],
    words: &mut [u32],
) -> Rays
    requires { Sampling k x floats.old words.old events }
    ensures { Sampled k view x events floats.old words.old result floats.new words.new }
{
    let n = sample_events(k, view, events, &mut *floats, &mut *words);
    if (k.samples as usize) < n {
        return Rays {
            samples: n,
            over: true,
        };
    }
    cast_all(k, view, x, n as u32, &mut *floats, &mut *words);
    sorts::order_keys_if(
        &*floats,
        words,
        room::samples_f(k),
        n,
        room::order_w(k),
        room::seen_w(k),
    );
    Rays {
        samples: n,
        over: false,
    }
}
