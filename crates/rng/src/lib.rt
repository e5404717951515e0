// `Rng` of scene.rs, lines 365 to 396: SplitMix64, tiny, fast and the same on every platform. A draw moves the generator
// on and hands back what was drawn; specs/Rng.antt says which.
#![tactic(auto)]

ghost use Rattle.std.specs.Prelude.{◌≡◌, ◌*◌, ◌/◌, ◌^◌};
ghost use Rattle.rng.specs.Rng.{new_of, next_u64_of, next_f64_of, range_of};

// The generator's state, one number.
#[derive(Clone, Copy, Debug)]
pub struct Rng(pub u64);

impl Rng {
    // A generator seeded with `seed`.
    pub fn new(seed: u64) -> Self
        ensures { result ≡ new_of seed }
    {
        Self(seed)
    }

    // Next 64 random bits.
    pub fn next_u64(&mut self) -> u64
        ensures value { result ≡ (next_u64_of self.old).value }
        ensures after { self.new ≡ (next_u64_of self.old).rng }
    {
        self.0 = self.0.wrapping_add(0x9e37_79b9_7f4a_7c15);
        let mut z = self.0;
        z = (z ^ (z >> 30)).wrapping_mul(0xbf58_476d_1ce4_e5b9);
        z = (z ^ (z >> 27)).wrapping_mul(0x94d0_49bb_1331_11eb);
        z ^ (z >> 31)
    }

    // Uniform in [0, 1). The conversions lose nothing: the shift leaves 53 bits.
    pub fn next_f64(&mut self) -> f64
        ensures value { result ≡ (next_f64_of self.old).value }
        ensures after { self.new ≡ (next_f64_of self.old).rng }
    {
        (self.next_u64() >> 11) as f64 * (1.0 / (1u64 << 53) as f64)
    }

    // Uniform integer in [lo, hi). Where hi is not above lo, nothing is drawn and lo is the answer.
    pub fn range(&mut self, lo: u64, hi: u64) -> u64
        ensures value { result ≡ (range_of self.old lo hi).value }
        ensures after { self.new ≡ (range_of self.old lo hi).rng }
    {
        if hi <= lo {
            return lo;
        }
        lo + mul_high(self.next_u64(), hi - lo)
    }
}

// The high 64 bits of a * b.
fn mul_high(a: u64, b: u64) -> u64
    ensures { result ≡ a * b / 2 ^ 64 }
{
    ((u128::from(a) * u128::from(b)) >> 64) as u64
}
