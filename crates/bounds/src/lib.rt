// Whole-number bounds of float results: the laws are in proofs/Within.antt and proofs/Domain.antt, and
// speak of specs/Within.antt. Beside them the two tests of document 01's "Domain" that a site's numbers have to pass (specs/Domain.antt).
// A comparison has no effect, so `&` joins two of them: no branch, of which a range's `contains` has two.
#![tactic(auto)]

ghost use Rattle.std.specs.Prelude.{◌≡◌};
ghost use Rattle.bounds.specs.Domain.{in_domain, in_size};

// The largest coordinate, width and height of the domain.
const MILLION: f64 = 1000000.0;

// Is a coordinate in the domain: finite, from -1,000,000 to 1,000,000?
pub fn in_domain(x: f64) -> bool
    ensures { result ≡ in_domain x }
{
    (-MILLION <= x) & (x <= MILLION)
}

// Is a site's width or height in the domain: finite, from 0 to 1,000,000?
pub fn in_size(x: f64) -> bool
    ensures { result ≡ in_size x }
{
    (0.0 <= x) & (x <= MILLION)
}
