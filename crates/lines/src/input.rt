// Words of hexadecimal digits, line by line, from a reader, for which the replays lend standard input. A read that fails counts as its end.
// What is left of the chunk that was read last stands from `at` up to `len`.
ghost use Rattle.std.specs.Prelude.{IfSome, ◌≤◌, length};

use crate::push;
use std::io::Read;

// A byte of the input, and what is left of the chunk behind it.
#[derive(Clone, Copy)]
struct Byte {
    value: u8,
    at: usize,
    len: usize,
}

fn next_byte<R: Read>(input: &mut R, chunk: &mut [u8], at: usize, len: usize) -> Option<Byte> {
    if at < len && at < chunk.len() {
        return Some(Byte {
            value: chunk[at],
            at: at + 1,
            len,
        });
    }
    let len = input.read(chunk).unwrap_or(0);
    if len == 0 {
        return None;
    }
    let value = *chunk.first()?;
    Some(Byte { value, at: 1, len })
}

// The value of a hexadecimal digit.
fn digit(b: u8) -> Option<u64> {
    match b {
        b'0'..=b'9' => Some(u64::from(b - b'0')),
        b'a'..=b'f' => Some(u64::from(b - b'a') + 10),
        _ => None,
    }
}

// A line: how many words it has, and what is left of the chunk behind it.
#[derive(Clone, Copy)]
pub struct Line {
    pub words: usize,
    pub at: usize,
    pub len: usize,
}

// Reads a line; what stands after the words that there is room for is passed over. Nothing, where the input ends before the line does.
pub fn read_line<R: Read>(
    input: &mut R,
    chunk: &mut [u8],
    from: usize,
    to: usize,
    out: &mut [u64],
) -> Option<Line>
    ensures { IfSome result (λ line. line.words ≤ length out.old) }
{
    let mut at = from;
    let mut len = to;
    let mut n: usize = 0;
    let mut w: u64 = 0;
    // The budget is far above any line, so that the loop ends whatever is read.
    for _ in 0..1000000 {
        let b = next_byte(input, chunk, at, len)?;
        at = b.at;
        len = b.len;
        if let Some(d) = digit(b.value) {
            w = w << 4 | d;
            continue;
        }
        n = push(out, n, w);
        w = 0;
        match b.value {
            b' ' => {}
            b'\n' => return Some(Line { words: n, at, len }),
            _ => return None,
        }
    }
    None
}
