// The text program for readers limited to three decimals (document 02, Q-7): as `plan`, which see, but what it answers is `planner::answer_three`. It reads by
// the same rules, six decimals included.
#![tactic(auto)]

use std::io;

// One byte more than a text may have.
const MOST: usize = 16385;

// No answer has more bytes: `planner::answer_three` promises it (`longest` in its specs). So none is cut.
const ROOM: usize = 77035;

fn main(rt: HostRuntime) -> io::Result<()> {
    let mut text = [0u8; MOST];
    let n = reading::read_text(&mut rt.stdin(), &mut text);
    let mut out = [0u8; ROOM];
    let r = planner::answer_three(&text[0..n], &mut out);
    rt.write_all(&out[0..r])
}
