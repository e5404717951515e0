// How grids, boxes, ranges and answers go through the probe: as the numbers that specs/Numbers.antt gives them.
ghost use Rattle.std.specs.Prelude.{◌≡◌};
ghost use Rattle.grid.specs.Boxes.{box_at};
ghost use Rattle.grid.specs.Numbers.{listed_counts};
ghost use Rattle.probe.specs.Numbers.{grid_of, found, four_of, built_count};

use geom::{Aabb, Vec2};
use grid::{CellRange, Grid, Listing};
use refusal::Refusal;

pub fn grid_of(gx: f64, gy: f64, cell: f64, inv: f64, cols: u32, rows: u32) -> Grid
    ensures { result ≡ grid_of gx gy cell inv cols rows }
{
    Grid {
        origin: Vec2 { x: gx, y: gy },
        cell,
        inv_cell: inv,
        cols,
        rows,
    }
}

// Four numbers in, a box: the first of a list of boxes.
pub fn box_of(b: &[f64; 4]) -> Aabb
    ensures { result ≡ box_at b.now 0 }
{
    grid::box_at(b, 0)
}

pub fn found(r: Option<CellRange>) -> u32
    ensures { result ≡ found r }
{
    r.is_some() as u32
}

// Four numbers out, a range.
pub fn put_range(out: &mut [u32; 4], r: Option<CellRange>)
    ensures { out.new ≡ four_of r }
{
    *out = match r {
        Some(c) => [c.c0, c.r0, c.c1, c.r1],
        None => [0; 4],
    };
}

pub fn built_count(b: Result<usize, Refusal>) -> u64
    ensures { result ≡ built_count b }
{
    match b {
        Ok(n) => n as u64,
        Err(_) => 0,
    }
}

// Two numbers out, how many ids were written and how many entries read.
pub fn put_counts(out: &mut [u64; 2], a: Result<Listing, Refusal>)
    ensures { out.new ≡ listed_counts a }
{
    *out = match a {
        Ok(l) => [l.written as u64, l.read as u64],
        Err(_) => [0; 2],
    };
}
