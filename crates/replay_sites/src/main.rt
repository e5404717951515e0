// Replays a fixed sample of the Rust's answers over sites, with no Rust at hand, through the C interface that users link (crates `exports_scene` and `exports_view`).
// Lines are as in crate `replay`: a number, arguments, results, each a word. A line 601 builds a site into the program's own tables
// (current.rt), and the lines after it, up to the next 601, ask that site (call.rt).
// `oracle/run sample` writes the input. The program prints how many lines it read, of how many functions, over how many sites, and how many differ.
#![tactic(auto)]

mod call;
mod current;
mod outlines;
mod questions;
mod results;
mod tally;

use lines::input;
use std::io;
use tally::{Place, Tally};

fn report(rt: &impl Print, t: Tally) -> io::Result<()> {
    println!(rt;
        "{} answers of {} functions over {} sites, {} differ",
        t.lines, t.functions, t.sites, t.differ
    )
}

// Site by site. The budget is far above any sample, so that the loop ends whatever is read.
fn main(rt: HostRuntime) -> io::Result<()> {
    let mut stdin = rt.stdin();
    let mut chunk = [0u8; 16384];
    let mut words = [0u64; 2048];
    let mut results = [0u64; 1536];
    let first = input::read_line(&mut stdin, &mut chunk, 0, 0, &mut words);
    let mut at = Place {
        tally: Tally::default(),
        line: first,
    };
    for _ in 0..1000000 {
        let Some(line) = at.line else {
            break;
        };
        at = current::replayed(
            &mut stdin,
            at.tally,
            line,
            &mut chunk,
            &mut words,
            &mut results,
        );
    }
    report(&rt, at.tally)
}
