// The cells that a ray pierces, nearest first: the Rust's `UniformGrid::traverse_ray` and `axis_setup` (grid.rs), as single steps on states by value.
// `traverse_ray` gives the course and the first place. At a place, `cell_of` and `exit_of` give what the Rust hands to its visitor; `advance` is the rest of
// the Rust's loop. A caller visits the cell, stops if it has seen enough, and advances.
// Meanings: specs/Clipping.antt (where the walk begins), specs/Steps.antt (a step), specs/Tours.antt (the walk). Each public function takes whatever it is given.
// Where the Rust would step and yet stay in its cell, the walk ends (document 01, "Site and grid"); with a length that is a number it never comes to that
// (proofs/NeverStays.antt).
#![tactic(auto)]

ghost use Rattle.std.specs.Prelude.{◌≡◌, ◌<◌};
ghost use Rattle.walk.specs.Clipping.{clip_of, clip_box_of, index_of, axis_of, set_out_of, ray_start, Cells};
ghost use Rattle.walk.specs.Steps.{moved_to, cell_number, exit_of, step_of};

use geom::Vec2;
use grid::Grid;

// The Rust's `step` of 1, -1 or 0.
#[derive(Clone, Copy)]
pub enum Turn {
    Up,
    Down,
    Stay,
}

// One axis of the walk: which way, the t of the first boundary crossing, the t between crossings.
#[derive(Clone, Copy)]
pub struct Axis {
    pub turn: Turn,
    pub next: f64,
    pub delta: f64,
}

// What does not change on the way: the grid's columns and rows, the two axes, the t where the ray ends.
#[derive(Clone, Copy)]
pub struct Course {
    pub cols: u32,
    pub rows: u32,
    pub x: Axis,
    pub y: Axis,
    pub t1: f64,
}

// A cell on the way: the t of the next crossing on each axis, and the t of entering.
#[derive(Clone, Copy)]
pub struct Place {
    pub col: u32,
    pub row: u32,
    pub next_x: f64,
    pub next_y: f64,
    pub enter: f64,
}

// One turn of the Rust's slab loop: the part of t0..t1 in which `o + t * d` lies from lo to hi.
fn clip(o: f64, d: f64, lo: f64, hi: f64, t0: f64, t1: f64) -> Option<(f64, f64)>
    ensures { result ≡ clip_of o d lo hi t0 t1 }
{
    if num::abs(d) < 1e-300 {
        if o < lo || o > hi {
            return None;
        }
        return Some((t0, t1));
    }
    let inv = 1.0 / d;
    let a = (lo - o) * inv;
    let b = (hi - o) * inv;
    if a > b {
        return Some((num::max(t0, b), num::min(t1, a)));
    }
    Some((num::max(t0, a), num::min(t1, b)))
}

// The ray clipped to the grid's box, x and then y, so that origins outside the grid work too.
fn clip_box(g: Grid, origin: Vec2, dir: Vec2, length: f64) -> Option<(f64, f64)>
    ensures { result ≡ clip_box_of g origin dir length }
{
    let right = g.origin.x + g.cols as f64 * g.cell;
    let bottom = g.origin.y + g.rows as f64 * g.cell;
    let (t0, t1) = clip(origin.x, dir.x, g.origin.x, right, 0.0, length)?;
    clip(origin.y, dir.y, g.origin.y, bottom, t0, t1)
}

// `(at.floor() as isize).clamp(0, last)`, for every float: a cast without a sign is 0 where the signed one is negative.
fn index_at(at: f64, last: u32) -> u32
    ensures { result ≡ index_of at last }
{
    let i = num::to_u64(num::floor(at));
    if i < last as u64 { i as u32 } else { last }
}

// One axis of the walk, for a ray that starts in the cell `index` of it.
fn axis_setup(d: f64, o: f64, gmin: f64, index: u32, cell: f64) -> Axis
    ensures { result ≡ axis_of d o gmin index cell }
{
    if d > 0.0 {
        let boundary = gmin + (index as u64 + 1) as f64 * cell;
        return Axis {
            turn: Turn::Up,
            next: (boundary - o) / d,
            delta: cell / d,
        };
    }
    if d < 0.0 {
        let boundary = gmin + index as f64 * cell;
        return Axis {
            turn: Turn::Down,
            next: (boundary - o) / d,
            delta: -cell / d,
        };
    }
    Axis {
        turn: Turn::Stay,
        next: 1.0 / 0.0,
        delta: 1.0 / 0.0,
    }
}

// The course and the first place of a ray that lies in the grid's box from t0 to t1. `traverse_ray` tests that there are cells.
fn set_out(g: Grid, origin: Vec2, dir: Vec2, t0: f64, t1: f64) -> Option<(Course, Place)>
    requires { Cells g }
    ensures { result ≡ set_out_of g origin dir t0 t1 }
{
    let start = origin.add(dir.mul(t0));
    let col = index_at((start.x - g.origin.x) * g.inv_cell, g.cols - 1);
    let row = index_at((start.y - g.origin.y) * g.inv_cell, g.rows - 1);
    let x = axis_setup(dir.x, origin.x, g.origin.x, col, g.cell);
    let y = axis_setup(dir.y, origin.y, g.origin.y, row, g.cell);
    Some((
        Course {
            cols: g.cols,
            rows: g.rows,
            x,
            y,
            t1,
        },
        Place {
            col,
            row,
            next_x: x.next,
            next_y: y.next,
            enter: t0,
        },
    ))
}

// Where the walk of the ray `origin + t * dir`, t from 0 to `length`, begins. A grid without cells has no walk: the sites' tests let none through.
pub fn traverse_ray(g: Grid, origin: Vec2, dir: Vec2, length: f64) -> Option<(Course, Place)>
    ensures { result ≡ ray_start g origin dir length }
{
    if g.cols == 0 || g.rows == 0 {
        return None;
    }
    let (t0, t1) = clip_box(g, origin, dir, length)?;
    if t0 > t1 {
        return None;
    }
    set_out(g, origin, dir, t0, t1)
}

// The number of the place's cell.
pub fn cell_of(k: Course, p: Place) -> usize
    ensures { result ≡ cell_number k p }
{
    p.row as usize * k.cols as usize + p.col as usize
}

// The t at which the ray leaves the place's cell, or ends in it.
pub fn exit_of(k: Course, p: Place) -> f64
    ensures { result ≡ exit_of k p }
{
    num::min(num::min(p.next_x, p.next_y), k.t1)
}

// An index one step on, in a grid with `count` of them.
fn moved(i: u32, count: u32, turn: Turn) -> Option<u32>
    ensures { result ≡ moved_to i count turn }
{
    match turn {
        Turn::Up if i as u64 + 1 < count as u64 => Some(i + 1),
        Turn::Down if 0 < i => Some(i - 1),
        Turn::Stay => None,
        _ => None,
    }
}

// The next place, if the ray does not end in this one and its step leads to another cell of the grid.
pub fn advance(k: Course, p: Place) -> Option<Place>
    ensures { result ≡ step_of k p }
{
    let exit = exit_of(k, p);
    if exit >= k.t1 {
        return None;
    }
    if p.next_x < p.next_y {
        let col = moved(p.col, k.cols, k.x.turn)?;
        Some(Place {
            col,
            next_x: p.next_x + k.x.delta,
            enter: exit,
            ..p
        })
    } else {
        let row = moved(p.row, k.rows, k.y.turn)?;
        Some(Place {
            row,
            next_y: p.next_y + k.y.delta,
            enter: exit,
            ..p
        })
    }
}
