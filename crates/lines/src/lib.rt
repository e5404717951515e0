// What the replays share (crates `replay` and `replay_sites`): lines of words of hexadecimal digits, and the words of an answer.
// A line is a function's number, its arguments and its results, each a word. A float is its bit pattern, a result after adding 0.0.
// Reads past the end give 0 and writes past the end do nothing, so that no caller has to show an index. Meanings: specs/Words.antt.
#![tactic(auto)]

ghost use Rattle.std.specs.Prelude.{◌≡◌, not, ◌+◌, ◌≤◌, length, get_or, set};
ghost use Rattle.std.specs.Float.{binary64};
ghost use Rattle.std.specs.Float.Ieee.{of_bits, to_bits};
ghost use Rattle.lists.specs.Lists.{bit};
ghost use Rattle.num.specs.Ops.{◌⊕◌, zero_f};
ghost use Rattle.lines.specs.Words.{narrowed, after_push, same_tail};

pub mod input;

// ---- words of a line

// The word at i, 0 past the end.
pub fn word(s: &[u64], i: usize) -> u64
    ensures { result ≡ get_or s.now i 0 }
{
    s.get(i).copied().unwrap_or(0)
}

// The word at i as a float.
pub fn float(s: &[u64], i: usize) -> f64
    ensures { result ≡ of_bits binary64 (get_or s.now i 0) }
{
    num::from_bits(word(s, i))
}

// The word at i as a number of 32 bits.
pub fn narrow(s: &[u64], i: usize) -> u32
    ensures { result ≡ narrowed (get_or s.now i 0) }
{
    (word(s, i) % 4294967296) as u32
}

// ---- words of an answer

// A float as a result.
pub fn pattern(x: f64) -> u64
    ensures { result ≡ to_bits binary64 (x ⊕ zero_f) }
{
    num::to_bits(x + 0.0)
}

// w after the first n words; how many there are then. A full list stays as it is.
pub fn push(out: &mut [u64], n: usize, w: u64) -> usize
    ensures value { result ≡ after_push (length out.old) n }
    ensures out_after { out.new ≡ set out.old n w }
{
    if n < out.len() {
        out[n] = w;
        return n + 1;
    }
    n
}

// The first n of a list after the words of out; how many there are then.
pub fn push_list(out: &mut [u64], from: usize, list: &[u32], n: usize) -> usize
    ensures { (from ≤ result) × (result ≤ from + n) }
{
    let mut at = from;
    // By index: a word past the end of the list counts as 0.
    for i in 0..n {
        at = push(&mut *out, at, u64::from(lists::at(list, i)));
    }
    at
}

// The same of floats. Not one function with the above: a float goes in as its bits.
pub fn push_floats(out: &mut [u64], from: usize, list: &[f64], n: usize) -> usize
    ensures { (from ≤ result) × (result ≤ from + n) }
{
    let mut at = from;
    // By index: past the end of the list a float counts as NaN.
    for i in 0..n {
        at = push(&mut *out, at, pattern(lists::at(list, i)));
    }
    at
}

// ---- a line against an answer

// The last r of the n words are the r results, and there are results.
pub fn same_tail(words: &[u64], n: usize, results: &[u64], r: usize) -> bool
    ensures { result ≡ same_tail words.now n results.now r }
{
    if n < r || r == 0 {
        return false;
    }
    let first = n - r;
    // By index: n and r may be more than the lists have, whose words past the end are 0.
    for i in 0..r {
        if word(words, first + i) != word(results, i) {
            return false;
        }
    }
    true
}

// 1 for no, 0 for yes: what a line adds to the count of those that differ.
pub fn one_if_not(ok: bool) -> u64
    ensures { result ≡ bit (not ok) }
{
    u64::from(!ok)
}
