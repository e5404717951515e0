// Replays a fixed sample of the Rust's answers, with no Rust at hand: each line of the input is a call and what the Rust answered.
// A line is words of hexadecimal digits with a space between: the function's number (call.rt), its arguments, its results.
// A float is its bit pattern, a result after adding 0.0 so that the sign of a zero does not count, every NaN as one.
// `oracle/run sample` writes the input. The program prints how many lines it read, over how many functions, and how many differ.
#![tactic(auto)]

mod answer;
mod call;
mod inner;
mod plane;

use lines::{input, one_if_not};
use std::io;

// How far the replay is. The lines of one function stand together, so a change of number is a new function.
#[derive(Clone, Copy, Default)]
struct Tally {
    pub lines: u64,
    pub functions: u64,
    pub last: u64,
    pub differ: u64,
}

fn counted(t: Tally, f: u64, ok: bool) -> Tally {
    Tally {
        lines: t.lines.wrapping_add(1),
        functions: t.functions.wrapping_add(u64::from(f != t.last)),
        last: f,
        differ: t.differ.wrapping_add(one_if_not(ok)),
    }
}

// t with a line of n words counted: its last words are to be what our function answers.
fn replayed(t: Tally, words: &[u64], n: usize, results: &mut [u64]) -> Tally {
    let r = call::answer(words, n, results);
    let ok = lines::same_tail(words, n, results, r);
    counted(t, lines::word(words, 0), ok)
}

fn report(rt: &impl Print, t: Tally) -> io::Result<()> {
    println!(rt;
        "{} answers of {} functions, {} differ",
        t.lines, t.functions, t.differ
    )
}

// Line by line. The budget is far above any sample, so that the loop ends whatever is read.
fn main(rt: HostRuntime) -> io::Result<()> {
    let mut chunk = [0u8; 16384];
    let mut words = [0u64; 1024];
    let mut results = [0u64; 256];
    let mut at: usize = 0;
    let mut len: usize = 0;
    let mut t = Tally::default();
    for _ in 0..4000000 {
        let Some(line) = input::read_line(&mut rt.stdin(), &mut chunk, at, len, &mut words) else {
            break;
        };
        at = line.at;
        len = line.len;
        t = replayed(t, &words, line.words, &mut results);
    }
    report(&rt, t)
}
