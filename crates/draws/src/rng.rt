ghost use Rattle.std.specs.Prelude.{◌≡◌};
ghost use Rattle.draws.specs.Rng.{new_rng_of, next_u64_of, next_f64_of};

// The increment of SplitMix64, which also stands in for seed 0.
pub const GOLDEN_GAMMA: u64 = 0x9E37_79B9_7F4A_7C15;

// How many draws from 0 up to 1 there are: 2^53.
const DRAWS: f64 = 9007199254740992.0;

// The generator xorshift64*. A draw takes it by value and hands it back beside what was drawn: document 01 gives its calls this form.
#[derive(Clone, Copy)]
pub struct Rng {
    pub state: u64,
}

impl Rng {
    // The generator for a seed. Seed 0 is replaced, since a state of 0 would stay 0.
    #[tactic(auto, unfolding(crate::specs::Rng::new_rng_of))]
    pub fn new(seed: u64) -> Rng
        ensures { result ≡ new_rng_of seed }
    {
        if seed == 0 {
            Rng {
                state: GOLDEN_GAMMA,
            }
        } else {
            Rng { state: seed }
        }
    }

    // The next output, behind the generator after it.
    #[tactic(auto, unfolding(crate::specs::Rng::next_u64_of, crate::specs::Rng::output_of, crate::specs::Rng::step_of))]
    pub fn next_u64(mut self) -> (Rng, u64)
        ensures { result ≡ next_u64_of self }
    {
        let mut x = self.state;
        x ^= x >> 12;
        x ^= x << 25;
        x ^= x >> 27;
        self.state = x;
        (self, numbers::wrapping_mul(x, 0x2545_F491_4F6C_DD1D))
    }

    // A draw from 0 up to 1, behind the generator after it: 53 bits of the next output, scaled without rounding.
    pub fn next_f64(self) -> (Rng, f64)
        ensures { result ≡ next_f64_of self }
    {
        let (rng, value) = self.next_u64();
        let top = value >> 11;
        (rng, top as f64 * (1.0 / DRAWS))
    }
}
