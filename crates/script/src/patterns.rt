// Bit patterns of floats, in 16 hexadecimal digits.
ghost use Rattle.std.specs.Prelude.{◌≡◌, from_bits, option_map};
ghost use Rattle.std.specs.Float.{binary64};
ghost use Rattle.script.specs.Patterns.{pattern_of};

use crate::hex;
use std::num;

// The pattern that 16 digits stand for.
#[tactic(auto, using(crate::proofs::Reading::more, crate::proofs::Reading::fits), unfolding(crate::specs::Patterns::pattern_from))]
pub fn pattern_of(digits: &[u8]) -> Option<u64>
    ensures { result ≡ pattern_of digits.now }
{
    if digits.len() != 16 {
        return None;
    }
    let mut bits = 0;
    for byte in digits {
        bits = bits * 16 + u64::from(hex::digit(*byte)?);
    }
    Some(bits)
}

// The float whose pattern a word is: a NaN for each pattern of one.
pub fn float_of(word: &[u8]) -> Option<f64>
    ensures { result ≡ option_map (from_bits binary64) (pattern_of word.now) }
{
    let bits = pattern_of(word)?;
    Some(num::f64_from_bits_with_nan(bits))
}
