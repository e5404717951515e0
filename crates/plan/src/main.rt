// The text program: standard input is read to its end, or to one byte more than a text may have, and answered on standard output
// (document 01, "The text program"). What it answers is `planner::answer`, with six decimals; a read that fails is answered as a text that is too long,
// REFUSED 9.
#![tactic(auto)]

use std::io;

// One byte more than a text may have.
const MOST: usize = 16385;

// No answer has more bytes: `planner::answer` promises it (`longest` in its specs). So none is cut.
const ROOM: usize = 92785;

fn main(rt: HostRuntime) -> io::Result<()> {
    let mut text = [0u8; MOST];
    let n = reading::read_text(&mut rt.stdin(), &mut text);
    let mut out = [0u8; ROOM];
    let r = planner::answer(&text[0..n], &mut out);
    rt.write_all(&out[0..r])
}
