// The cases of the text program: each refusal that a text can meet, the texts on both sides of a limit, and texts that are answered
// (document 01, "The text program" and "Refusal numbers"; document 02, Q-2 and Q-7). Standard input holds them one after the other:
//   a line BYTES NAME; so many bytes, which are the text, whatever they are; LF.
// So a text that ends with LF is followed by an empty line. The name says what the documents ask for. Each case's line is printed again, after it what
// `planner::answer` answers, then a line 3 DECIMALS and what `planner::answer_three` does.
#![tactic(auto)]

ghost use Rattle.std.specs.Prelude.{◌≤◌, length, IfOk};

use std::io;
use std::io::Read;

// One byte more than a text may have.
const MOST: usize = 16385;

// The longest answer here, an outline of 2,048 points, has 57,033 bytes.
const ROOM: usize = 65536;

// The next byte of a case's line, printed; none at the end of the input.
fn next_byte(rt: HostRuntime) -> io::Result<Option<u8>> {
    let mut byte = [0u8; 1];
    if rt.stdin().read(&mut byte)? == 0 {
        return Ok(None);
    }
    rt.write_all(&byte)?;
    Ok(Some(byte[0]))
}

// The number that a case's line begins with, five digits at most, and the space after it: how many bytes of text follow. None, where no case is left;
// a byte 0 ends the cases too.
fn read_bytes(rt: HostRuntime) -> io::Result<Option<usize>> {
    let mut n: usize = 0;
    for _ in 0..6 {
        match next_byte(rt)? {
            Some(b' ') => return Ok(Some(n)),
            None | Some(0) => return Ok(None),
            Some(b) => n = n % 10000 * 10 + usize::from(b % 16),
        }
    }
    Ok(None)
}

// The name, up to the end of its line.
fn pass_name(rt: HostRuntime) -> io::Result<()> {
    for _ in 0..1000 {
        if next_byte(rt)? == Some(b'\n') {
            break;
        }
    }
    Ok(())
}

// Prints an answer of r bytes. What is longer than the room for it is not printed.
fn print_answer(rt: HostRuntime, r: usize, out: &[u8]) -> io::Result<()> {
    if r <= out.len() {
        rt.write_all(&out[..r])?;
    }
    Ok(())
}

// Reads until the part is full or the input ends, and answers how many bytes it has then.
fn read_full(rt: HostRuntime, part: &mut [u8]) -> io::Result<usize>
    ensures { IfOk result (λ n. n ≤ length part.new) }
{
    let most = part.len();
    let mut n: usize = 0;
    for _ in 0..most {
        let got = rt.stdin().read(&mut part[n..most])?;
        if got == 0 {
            return Ok(n);
        }
        n = (n + got).min(most);
    }
    Ok(n)
}

// Reads a text of n bytes and the LF after it, and prints both answers.
fn print_case(rt: HostRuntime, n: usize, text: &mut [u8], out: &mut [u8]) -> io::Result<()> {
    if n <= text.len() {
        let got = read_full(rt, &mut text[..n])?;
        let mut end = [0u8; 1];
        rt.stdin().read(&mut end)?;
        let r = planner::answer(&text[..got], &mut *out);
        print_answer(rt, r, &*out)?;
        rt.write_all(b"3 DECIMALS\n")?;
        let k = planner::answer_three(&text[..got], &mut *out);
        print_answer(rt, k, &*out)?;
    }
    Ok(())
}

fn main(rt: HostRuntime) -> io::Result<()> {
    let mut text = [0u8; MOST];
    let mut out = [0u8; ROOM];
    for _ in 0..1000 {
        let Some(n) = read_bytes(rt)? else {
            break;
        };
        pass_name(rt)?;
        print_case(rt, n, &mut text, &mut out)?;
    }
    Ok(())
}
