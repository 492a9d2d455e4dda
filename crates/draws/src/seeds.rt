ghost use Rattle.std.specs.Prelude.{◌≡◌};
ghost use Rattle.draws.specs.Mix.{mix_of, direction_seed_of};

use crate::rng::GOLDEN_GAMMA;

// Mixes a seed and a salt by the finalizer of SplitMix64.
#[tactic(auto, unfolding(crate::specs::Mix::mix_of, crate::specs::Mix::mix64_of))]
pub fn mix(seed: u64, salt: u64) -> u64
    ensures { result ≡ mix_of seed salt }
{
    let salted = numbers::wrapping_mul(salt, 0xD1B5_4A32_D192_ED03);
    let mut z = seed.wrapping_add(GOLDEN_GAMMA).wrapping_add(salted);
    z = numbers::wrapping_mul(z ^ (z >> 30), 0xBF58_476D_1CE4_E5B9);
    z = numbers::wrapping_mul(z ^ (z >> 27), 0x94D0_49BB_1331_11EB);
    z ^ (z >> 31)
}

// The generator's seed for a device that takes one direction's settings. It stands beside `mix`, since document 01 names both of the source.
pub fn direction_seed(seed: u64, salt: u64) -> u64
    ensures { result ≡ direction_seed_of seed salt }
{
    mix(seed, salt)
}
