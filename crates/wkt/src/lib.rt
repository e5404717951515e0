// Reading the text program's input: a post and polygons in Well-Known Text (document 01, "The text program"; document 02, Q-2 and Q-7; OGC 06-103r4).
// What a text means stands in specs/Grammar.antt, under the rules of specs/Rules.antt, on lists and without a cursor; here a cursor runs over
// the bytes once, each point is stored where there is room for it, and all are counted. `read_input` is the one call from outside; printing
// uses `ten_to` too.
#![tactic(auto)]

ghost use Rattle.std.specs.Prelude.{◌≡◌, ◌+◌, ◌*◌, ◌^◌, ◌<◌, ◌≤◌, ◌&&◌, [], ◌∷◌, length, drop, nat_le};
ghost use Rattle.std.proofs.lemmas.List.Edits.{sets};
ghost use Rattle.wkt.specs.Limits.{least_ring};
ghost use Rattle.wkt.specs.Words.{comma};
ghost use Rattle.wkt.specs.Parse.{starts, spells, word};
ghost use Rattle.wkt.specs.Rules.{capital_of, rules};
ghost use Rattle.wkt.specs.Number.{digits_of, number, unsigned, decimal};
ghost use Rattle.wkt.specs.Grammar.{pair, ring, ring_line, polygon, polygons, measure, post_line, text_of, same, point};
ghost use Rattle.wkt.specs.Answer.{input_of, Says};
ghost use Rattle.wkt.specs.Cursor.{AfterWord, head_digit, run_seen, RunOn, number_seen, NumberOn, pair_seen, PairOn, ring_seen, RingOn, counted, StoredBy, LineOn, lines_seen, tallied, StoredAll, post_seen, PostOn, StoredText, answer_of, polygons_in, points_in};

use refusal::Refusal;

// The limits, as specs/Limits.antt names them.
const WHOLE_DIGITS: usize = 7;

const PART_DIGITS: usize = 6;

const LEAST_RING: usize = 4;

const MAX_BYTES: usize = 16384;

const MAX_POLYGONS: usize = 64;

const MAX_POINTS: usize = 512;

// What is read at a cursor, with the cursor behind it. Where a text is not as laid out there is none.
#[derive(Clone, Copy)]
pub struct Run {
    pub value: u64,
    pub next: usize,
}

#[derive(Clone, Copy)]
pub struct Number {
    pub value: f64,
    pub next: usize,
}

#[derive(Clone, Copy)]
pub struct Pair {
    pub x: f64,
    pub y: f64,
    pub next: usize,
}

// How many points a ring has, the closing one not counted.
#[derive(Clone, Copy)]
pub struct Ring {
    pub points: usize,
    pub next: usize,
}

#[derive(Clone, Copy)]
pub struct Post {
    pub x: f64,
    pub y: f64,
    pub range: f64,
    pub next: usize,
}

// How many polygons and points the lines have.
#[derive(Clone, Copy)]
pub struct Lines {
    pub polygons: usize,
    pub points: usize,
}

// What a text is answered with: the post, its range and the counts.
#[derive(Clone, Copy)]
pub struct Input {
    pub x: f64,
    pub y: f64,
    pub range: f64,
    pub polygons: usize,
    pub points: usize,
}

// Whether the byte b stands at the cursor.
fn is_at(s: &[u8], at: usize, b: u8) -> bool
    ensures { result ≡ starts b (drop at s.now) }
{
    at < s.len() && s[at] == b
}

// Whether the byte b, which is no small letter, stands at the cursor, or the small letter of the capital b. Not by a bit, which would
// change other bytes too.
fn spells_at(s: &[u8], at: usize, b: u8) -> bool
    ensures { result ≡ spells capital_of b (drop at s.now) }
{
    at < s.len() && s[at].to_ascii_uppercase() == b
}

// The cursor behind a word that stands at the cursor, in capitals or not.
fn after_word(s: &[u8], at: usize, word: &[u8]) -> Option<usize>
    requires { at ≤ length s.now }
    ensures { AfterWord s.now at word.now result }
{
    for (i, b) in word.iter().enumerate() {
        if !spells_at(s, at + i, *b) {
            return None;
        }
    }
    Some(at + word.len())
}

// The digit at the cursor.
fn digit(s: &[u8], at: usize) -> Option<u64>
    ensures { result ≡ head_digit (drop at s.now) }
{
    match *s.get(at)? {
        b @ b'0'..=b'9' => Some(u64::from(b - b'0')),
        _ => None,
    }
}

// 1 to `limit` digits.
fn digits(s: &[u8], at: usize, limit: usize) -> Option<Run>
    requires { limit ≤ 15 }
    ensures seen { run_seen s.now at result ≡ digits_of limit (drop at s.now) }
    ensures on { RunOn s.now at limit result }
{
    let mut value: u64 = 0;
    let mut next = at;
    while let Some(d) = digit(s, next) {
        if next - at == limit {
            return None;
        }
        value = value * 10 + d;
        next += 1;
    }
    if next == at {
        return None;
    }
    Some(Run { value, next })
}

// 10 to the power k.
pub fn ten_to(k: usize) -> u64
    requires { k ≤ 15 }
    ensures { result ≡ 10 ^ k }
{
    10u64.pow(k as u32)
}

// The float nearest to n + v / 10^k. Both numbers are whole and below 2^53, so that one division rounds once.
fn decimal_of(minus: bool, n: u64, v: u64, k: usize) -> f64
    requires { (k ≤ 15) × (n * 10 ^ k + v < 10 ^ 15) }
    ensures { result ≡ decimal minus n v k }
{
    let p = ten_to(k);
    let m = n * p + v;
    let x = std::num::nearest_u64_to_f64(m) / std::num::nearest_u64_to_f64(p);
    if m == 0 {
        return x;
    }
    if minus {
        return -x;
    }
    x
}

fn unsigned_number(s: &[u8], at: usize, minus: bool, whole: usize, part: usize) -> Option<Number>
    requires { whole + part ≤ 15 }
    ensures seen { number_seen s.now result ≡ unsigned whole part minus (drop at s.now) }
    ensures on { NumberOn s.now at result }
{
    let n = digits(s, at, whole)?;
    if !is_at(s, n.next, b'.') {
        return Some(Number {
            value: decimal_of(minus, n.value, 0, 0),
            next: n.next,
        });
    }
    let start = n.next + 1;
    let v = digits(s, start, part)?;
    Some(Number {
        value: decimal_of(minus, n.value, v.value, v.next - start),
        next: v.next,
    })
}

// A number: an optional minus, 1 to `whole` digits, optionally a point and 1 to `part` digits.
fn read_number(s: &[u8], at: usize, whole: usize, part: usize) -> Option<Number>
    requires { whole + part ≤ 15 }
    ensures seen { number_seen s.now result ≡ number whole part (drop at s.now) }
    ensures on { NumberOn s.now at result }
{
    if is_at(s, at, b'-') {
        return unsigned_number(s, at + 1, true, whole, part);
    }
    unsigned_number(s, at, false, whole, part)
}

// x y
fn read_pair(s: &[u8], at: usize, whole: usize, part: usize) -> Option<Pair>
    requires { whole + part ≤ 15 }
    ensures seen { pair_seen s.now result ≡ pair (rules whole part) (drop at s.now) }
    ensures on { PairOn s.now at result }
{
    let x = read_number(s, at, whole, part)?;
    if !spells_at(s, x.next, b' ') {
        return None;
    }
    let y = read_number(s, x.next + 1, whole, part)?;
    Some(Pair {
        x: x.value,
        y: y.value,
        next: y.next,
    })
}

// A comma, a space and x y.
fn comma_pair(s: &[u8], at: usize, whole: usize, part: usize) -> Option<Pair>
    requires { (whole + part ≤ 15) × (at ≤ length s.now) × (length s.now < 4294967296) }
    ensures seen { pair_seen s.now result ≡ word capital_of comma (drop at s.now) (pair (rules whole part)) }
    ensures on { PairOn s.now at result }
{
    let start = after_word(s, at, b", ")?;
    read_pair(s, start, whole, part)
}

// Stores the k-th point where there is room for it.
fn put_point(pts: &mut [f64], k: usize, x: f64, y: f64)
    requires { k < 8589934592 }
    ensures { pts.new ≡ sets pts.old (2 * k) (x ∷ y ∷ []) }
{
    lists::put(pts, 2 * k, x);
    lists::put(pts, 2 * k + 1, y);
}

// Whether (x, y) closes a ring of n points that starts at (x0, y0).
fn closes(n: usize, x: f64, y: f64, x0: f64, y0: f64) -> bool
    requires { n < 4294967296 }
    ensures { result ≡ (nat_le least_ring (n + 1) && same (point x y) (point x0 y0)) }
{
    LEAST_RING <= n + 1 && x == x0 && y == y0
}

// x y, x y, .., closed: the points but the closing one are stored from the k-th on.
fn read_ring(
    s: &[u8],
    at: usize,
    whole: usize,
    part: usize,
    pts: &mut [f64],
    k: usize,
) -> Option<Ring>
    requires { (whole + part ≤ 15) × (at ≤ length s.now) × (length s.now < 4294967296) × (k ≤ at) }
    ensures seen { ring_seen s.now result ≡ counted (ring (rules whole part) (drop at s.now)) }
    ensures on { RingOn s.now at result }
    ensures stored { StoredBy (ring (rules whole part) (drop at s.now)) pts.old k pts.new }
{
    let first = read_pair(s, at, whole, part)?;
    let mut last = first;
    let mut n: usize = 0;
    // A point may have any length: the cursor goes from comma to comma.
    while is_at(s, last.next, b',') {
        put_point(pts, k + n, last.x, last.y);
        last = comma_pair(s, last.next, whole, part)?;
        n += 1;
    }
    if closes(n, last.x, last.y, first.x, first.y) {
        return Some(Ring {
            points: n,
            next: last.next,
        });
    }
    None
}

// POLYGON ((x y, x y, ..)) and the end of the line.
fn read_ring_line(
    s: &[u8],
    at: usize,
    whole: usize,
    part: usize,
    pts: &mut [f64],
    k: usize,
) -> Option<Ring>
    requires { (whole + part ≤ 15) × (at ≤ length s.now) × (length s.now < 4294967296) × (k ≤ at) }
    ensures seen { ring_seen s.now result ≡ counted (ring_line (rules whole part) (drop at s.now)) }
    ensures on { LineOn s.now at result }
    ensures stored { StoredBy (ring_line (rules whole part) (drop at s.now)) pts.old k pts.new }
{
    let start = after_word(s, at, b"POLYGON ((")?;
    let ring = read_ring(s, start, whole, part, pts, k)?;
    let next = after_word(s, ring.next, b"))\n")?;
    Some(Ring {
        points: ring.points,
        next,
    })
}

// POLYGON EMPTY, which has no points, or a ring's line.
fn read_polygon(
    s: &[u8],
    at: usize,
    whole: usize,
    part: usize,
    pts: &mut [f64],
    k: usize,
) -> Option<Ring>
    requires { (whole + part ≤ 15) × (at ≤ length s.now) × (length s.now < 4294967296) × (k ≤ at) }
    ensures seen { ring_seen s.now result ≡ counted (polygon (rules whole part) (drop at s.now)) }
    ensures on { LineOn s.now at result }
    ensures stored { StoredBy (polygon (rules whole part) (drop at s.now)) pts.old k pts.new }
{
    if let Some(next) = after_word(s, at, b"POLYGON EMPTY\n") {
        return Some(Ring { points: 0, next });
    }
    read_ring_line(s, at, whole, part, pts, k)
}

// The lines of polygons from the cursor to the end of the text.
fn read_polygons(
    s: &[u8],
    at: usize,
    whole: usize,
    part: usize,
    pts: &mut [f64],
    lens: &mut [u32],
) -> Option<Lines>
    requires { (whole + part ≤ 15) × (at ≤ length s.now) × (length s.now < 4294967296) }
    ensures seen { lines_seen result ≡ tallied (polygons (rules whole part) (length (drop at s.now)) (drop at s.now)) }
    ensures stored { StoredAll (polygons (rules whole part) (length (drop at s.now)) (drop at s.now)) pts.old lens.old pts.new lens.new }
{
    let mut i = at;
    let mut m: usize = 0;
    let mut k: usize = 0;
    // A line may have any length: the cursor goes from line to line.
    while i < s.len() {
        let ring = read_polygon(s, i, whole, part, pts, k)?;
        lists::put(lens, m, ring.points as u32);
        i = ring.next;
        m += 1;
        k += ring.points;
    }
    Some(Lines {
        polygons: m,
        points: k,
    })
}

// A space, the range m and the end of the post's line.
fn read_measure(s: &[u8], at: usize, whole: usize, part: usize) -> Option<Number>
    requires { (whole + part ≤ 15) × (length s.now < 4294967296) }
    ensures seen { number_seen s.now result ≡ measure (rules whole part) (drop at s.now) }
    ensures on { NumberOn s.now at result }
{
    if !spells_at(s, at, b' ') {
        return None;
    }
    let range = read_number(s, at + 1, whole, part)?;
    let next = after_word(s, range.next, b")\n")?;
    Some(Number {
        value: range.value,
        next,
    })
}

// POINT M (x y m) and the end of the line.
fn read_post(s: &[u8], whole: usize, part: usize) -> Option<Post>
    requires { (whole + part ≤ 15) × (length s.now < 4294967296) }
    ensures seen { post_seen s.now result ≡ post_line (rules whole part) s.now }
    ensures on { PostOn s.now result }
{
    let start = after_word(s, 0, b"POINT M (")?;
    let at = read_pair(s, start, whole, part)?;
    let range = read_measure(s, at.next, whole, part)?;
    Some(Post {
        x: at.x,
        y: at.y,
        range: range.value,
        next: range.next,
    })
}

// Text is checked first (9), then the counts (2).
fn answer(post: Post, lines: Option<Lines>) -> Result<Input, Refusal>
    ensures { result ≡ answer_of post.x post.y post.range lines }
{
    let Lines { polygons, points } = lines.ok_or(Refusal::NotAsLaidOut)?;
    if polygons > MAX_POLYGONS || points > MAX_POINTS {
        return Err(Refusal::TooMany);
    }
    Ok(Input {
        x: post.x,
        y: post.y,
        range: post.range,
        polygons,
        points,
    })
}

// The whole text. What is refused may have stored something.
fn read_text(
    s: &[u8],
    whole: usize,
    part: usize,
    pts: &mut [f64],
    lens: &mut [u32],
) -> Result<Input, Refusal>
    requires { whole + part ≤ 15 }
    ensures read { result ≡ input_of (text_of (rules whole part) s.now) }
    ensures stored { StoredText (text_of (rules whole part) s.now) pts.old lens.old pts.new lens.new }
{
    if s.len() > MAX_BYTES {
        return Err(Refusal::NotAsLaidOut);
    }
    let post = read_post(s, whole, part).ok_or(Refusal::NotAsLaidOut)?;
    let lines = read_polygons(s, post.next, whole, part, pts, lens);
    answer(post, lines)
}

fn polygons_in(a: Result<Input, Refusal>) -> usize
    ensures { result ≡ polygons_in a }
{
    match a {
        Ok(input) => input.polygons,
        Err(_) => 0,
    }
}

fn points_in(a: Result<Input, Refusal>) -> usize
    ensures { result ≡ points_in a }
{
    match a {
        Ok(input) => input.points,
        Err(_) => 0,
    }
}

// Reads a whole input. The points' coordinates x, y and the polygons' lengths stand at the front of the lent slices, as many as
// there is room for, and zero behind them. A refusal, 9 or 2, leaves all zero.
pub fn read_input(s: &[u8], pts: &mut [f64], lens: &mut [u32]) -> Result<Input, Refusal>
    ensures { Says s.now (length pts.old) (length lens.old) result pts.new lens.new }
{
    let a = read_text(s, WHOLE_DIGITS, PART_DIGITS, pts, lens);
    lists::clear_from(pts, 2 * points_in(a));
    lists::clear_from(lens, polygons_in(a));
    a
}
