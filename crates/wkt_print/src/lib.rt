// Printing the text program's output: numbers in decimals, closed polygons and refusals (document 01, "The text program"; OGC 06-103r4).
// Each function writes into a lent slice from a place on and hands back the place after what it wrote. A full slice is counted on
// without writing. Numbers are worked out in whole numbers, exactly, and rounded once.
#![tactic(auto)]

ghost use Rattle.std.specs.Prelude.{◌≡◌, ◌+◌, ◌*◌, ◌^◌, ◌≤◌, ◌<◌, false, not, ◌&&◌, eqb, length, get_or};
ghost use Rattle.std.specs.Float.Ieee.{lt, of_bits};
ghost use Rattle.std.specs.Float.{binary64};
ghost use Rattle.std.specs.Float.Ieee.Nearest.{closest};
ghost use Rattle.wkt.specs.Words.{minus_if};
ghost use Rattle.wkt.specs.Grammar.{point};
ghost use Rattle.wkt_print.specs.Decimal.{scaled_of, fixed, width, whole_text, shown, Printed};
ghost use Rattle.wkt_print.specs.Lines.{points_of, point_text, list_text, polygon_text, refused_text};

fn two_to(k: u64) -> u64
    requires { k ≤ 62 }
    ensures { result ≡ 2 ^ k }
{
    1 << k
}

// n * c / 2^k, rounded to the nearest, halves to even. n * c may have 73 bits: it is worked as w * 2^27 + l.
fn rounded(n: u64, c: u64, k: u64) -> u64
    requires { (n < 9007199254740992) × (c ≤ 1000000) × (28 ≤ k) }
    ensures { result ≡ closest (n * c) (2 ^ k) }
{
    if 90 <= k {
        return 0;
    }
    let b = (n % 134217728) * c;
    let w = n / 134217728 * c + b / 134217728;
    let d = two_to(k - 27);
    let q = w / d;
    let r = w % d;
    if 2 * r < d {
        return q;
    }
    if 2 * r == d && b % 134217728 == 0 {
        return q + q % 2;
    }
    q + 1
}

// x * 10^places rounded, of an x that is not negative.
fn scaled_up(x: f64, places: usize) -> u64
    requires { (places ≤ 6) × (lt x (of_bits binary64 0) ≡ false) }
    ensures { result ≡ scaled_of places x }
{
    if 0.0 < x && x < 33554432.0 {
        let c = wkt::ten_to(places);
        let b = f64::to_bits(x);
        let f = b / 4503599627370496;
        let t = b % 4503599627370496;
        if f == 0 {
            return rounded(t, c, 1074);
        }
        return rounded(t + 4503599627370496, c, 1075 - f);
    }
    0
}

// |x| * 10^places, rounded to the nearest whole number, halves to even.
fn scaled(x: f64, places: usize) -> u64
    requires { places ≤ 6 }
    ensures { result ≡ scaled_of places x }
{
    if x < 0.0 {
        return scaled_up(-x, places);
    }
    scaled_up(x, places)
}

// How many decimal digits n has.
fn width_of(n: u64) -> usize
    requires { n < 10000000000 }
    ensures { (result ≡ width n) × (result ≤ 10) × (n < 10 ^ result) }
{
    let mut p: u64 = 10;
    let mut w: usize = 1;
    // Each step is ten times as far: up to the first power that is more than n.
    while p <= n {
        p *= 10;
        w += 1;
    }
    w
}

// n in k decimal digits, the last one first: so each takes one division by ten.
fn put_digits(out: &mut [u8], at: usize, k: usize, n: u64) -> usize
    requires { (k ≤ 10) × (n < 10 ^ k) × (at < 1099511627776) }
    ensures { Printed out.old at (fixed k n) out.new result }
{
    let mut m = n;
    for j in (0..k).rev() {
        lists::put(out, at + j, b'0' + (m % 10) as u8);
        m /= 10;
    }
    at + k
}

// A whole number.
fn put_whole(out: &mut [u8], at: usize, n: u64) -> usize
    requires { (n < 10000000000) × (at < 1099511627776) }
    ensures { Printed out.old at (whole_text n) out.new result }
{
    put_digits(out, at, width_of(n), n)
}

// Whether a minus is printed: x is below 0 and its decimals are not all 0.
fn is_minus(x: f64, q: u64) -> bool
    ensures { result ≡ (lt x (of_bits binary64 0) && not (eqb q 0)) }
{
    x < 0.0 && q != 0
}

fn put_minus(out: &mut [u8], at: usize, minus: bool) -> usize
    requires { at < 1099511627776 }
    ensures { Printed out.old at (minus_if minus) out.new result }
{
    if minus {
        lists::put(out, at, b'-');
        return at + 1;
    }
    at
}

// A float with `places` decimals.
pub fn print_number(out: &mut [u8], at: usize, x: f64, places: usize) -> usize
    requires { (places ≤ 6) × (at < 549755813888) }
    ensures { Printed out.old at (shown places x) out.new result }
{
    let q = scaled(x, places);
    let p = wkt::ten_to(places);
    let i = put_minus(out, at, is_minus(x, q));
    let j = put_whole(out, i, q / p);
    lists::put(out, j, b'.');
    put_digits(out, j + 1, places, q % p)
}

// The bytes of a word.
fn put_word(out: &mut [u8], at: usize, word: &[u8]) -> usize
    requires { (at < 1099511627776) × (length word.now < 256) }
    ensures { Printed out.old at word.now out.new result }
{
    for (i, b) in word.iter().enumerate() {
        lists::put(out, at + i, *b);
    }
    at + word.len()
}

// x y
fn print_point(out: &mut [u8], at: usize, x: f64, y: f64, places: usize) -> usize
    requires { (places ≤ 6) × (at < 549755813000) }
    ensures { Printed out.old at (point_text places (point x y)) out.new result }
{
    let i = print_number(out, at, x, places);
    lists::put(out, i, b' ');
    print_number(out, i + 1, y, places)
}

// Each point of a list and a comma after it.
fn print_points(out: &mut [u8], at: usize, pts: &[f64], places: usize) -> usize
    requires { (places ≤ 6) × (length pts.now < 4294967296) × (at < 4294967808) }
    ensures { Printed out.old at (list_text places (points_of pts.now)) out.new result }
{
    let mut j = at;
    for p in pts.chunks_exact(2) {
        j = print_point(out, j, p[0], p[1], places);
        j = put_word(out, j, b", ");
    }
    j
}

// A line: POLYGON ((x y, .., x y)), closed with the first point again, or POLYGON EMPTY for no points. The points are a part of a
// point list, x and y of each.
pub fn print_polygon(out: &mut [u8], at: usize, pts: &[f64], places: usize) -> usize
    requires { (places ≤ 6) × (length pts.now < 4294967296) × (at < 4294967296) }
    ensures { Printed out.old at (polygon_text places (points_of pts.now)) out.new result }
{
    if pts.len() < 2 {
        return put_word(out, at, b"POLYGON EMPTY\n");
    }
    let i = put_word(out, at, b"POLYGON ((");
    let j = print_points(out, i, pts, places);
    let k = print_point(out, j, pts[0], pts[1], places);
    put_word(out, k, b"))\n")
}

// A line: REFUSED n.
pub fn print_refused(out: &mut [u8], at: usize, n: u32) -> usize
    requires { at < 4294967296 }
    ensures { Printed out.old at (refused_text n) out.new result }
{
    let i = put_word(out, at, b"REFUSED ");
    let j = put_whole(out, i, u64::from(n));
    put_word(out, j, b"\n")
}
