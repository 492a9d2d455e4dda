// Whole numbers: any below 2^64, at most 2^53, and at most 2^53 but not zero.
ghost use Rattle.std.specs.Prelude.{◌≡◌};
ghost use Rattle.values.specs.Whole.{parse_u64_of, parse_bounded_of, parse_positive_of};

use crate::digits::{digits_from, without_plus};
use numbers::{MAX_EXACT, Refusal};

// A whole number below 2^64.
#[tactic(auto, unfolding(crate::specs::Whole::parse_u64_of))]
pub fn parse_u64(v: &[u8]) -> Result<u64, Refusal>
    ensures { result ≡ parse_u64_of v.now }
{
    let digits = without_plus(v);
    if digits.is_empty() {
        return Err(Refusal::Whole);
    }
    digits_from(digits, 0)
}

// A whole number up to 2^53.
#[tactic(auto, unfolding(crate::specs::Whole::at_most))]
pub fn parse_bounded(v: &[u8]) -> Result<u64, Refusal>
    ensures { result ≡ parse_bounded_of v.now }
{
    let n = parse_u64(v)?;
    if n <= MAX_EXACT {
        Ok(n)
    } else {
        Err(Refusal::WholeAbove)
    }
}

// A whole number from 1 to 2^53.
#[tactic(auto, unfolding(crate::specs::Whole::not_zero))]
pub fn parse_positive(v: &[u8]) -> Result<u64, Refusal>
    ensures { result ≡ parse_positive_of v.now }
{
    let n = parse_bounded(v)?;
    if n == 0 { Err(Refusal::Zero) } else { Ok(n) }
}
