// How the text programs `plan` and `plan_three` read standard input: to its end, or as far as there is room (document 01, "The text program").
#![tactic(auto)]

ghost use Rattle.std.specs.Prelude.{◌≡◌, ◌≤◌, length};

use std::io::Read;

// Reads into the text until it is full or the input ends, and answers how many bytes it has. Where a read fails, all of it: a text that is too long.
// Each read but the last brings a byte or more, so there are at most as many reads as bytes.
pub fn read_text<R: Read>(input: &mut R, text: &mut [u8]) -> usize
    ensures { result ≤ length text.new }
{
    let most = text.len();
    let mut n: usize = 0;
    for _ in 0..most {
        match input.read(&mut text[n..most]) {
            Err(_) => return most,
            Ok(0) => return n,
            Ok(got) => n = (n + got).min(most),
        }
    }
    n
}
