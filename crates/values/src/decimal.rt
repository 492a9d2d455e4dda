// Decimals: whole numbers that are divided once, by a power of ten.
ghost use Rattle.std.specs.Prelude.{◌≡◌, ◌≤◌};
ghost use Rattle.numbers.specs.Digits.{decimal_value};
ghost use Rattle.values.specs.Whole.{digits_from};
ghost use Rattle.values.specs.Stages.{read_on};
ghost use Rattle.values.specs.Decimal.{parse_f64_ms_of, parse_prob_of};

use crate::bytes::{before_first, behind_first};
use crate::digits::{digits_from, without_plus};
use numbers::Refusal;

// The most digits that a decimal may have.
const MOST_DIGITS: usize = 15;

// The digits before and behind the point, as one whole number.
fn both_read(whole: &[u8], fraction: &[u8]) -> Result<u64, Refusal>
    ensures { result ≡ read_on (digits_from 0 whole.now) fraction.now }
{
    let n = digits_from(whole, 0)?;
    digits_from(fraction, n)
}

// The number over 10^places.
#[tactic(auto, unfolding(numbers::specs::Digits::decimal_value))]
fn over_power(number: u64, places: usize) -> f64
    requires { places ≤ 15 }
    ensures { result ≡ decimal_value number places }
{
    let top = std::num::nearest_u64_to_f64(number);
    let low = std::num::nearest_u64_to_f64(10u64.pow(places as u32));
    top / low
}

// Milliseconds: a decimal of at most 15 digits.
pub fn parse_f64_ms(v: &[u8]) -> Result<f64, Refusal>
    ensures { result ≡ parse_f64_ms_of v.now }
{
    let digits = without_plus(v);
    let whole = before_first(digits, b'.');
    let fraction = behind_first(digits, b'.');
    let count = whole.len() + fraction.len();
    if count == 0 || MOST_DIGITS < count {
        return Err(Refusal::Decimal);
    }
    let number = both_read(whole, fraction).map_err(|_| Refusal::Decimal)?;
    Ok(over_power(number, fraction.len()))
}

// A probability: a decimal from 0 to 1.
#[tactic(auto, unfolding(crate::specs::Decimal::at_most_one))]
pub fn parse_prob(v: &[u8]) -> Result<f64, Refusal>
    ensures { result ≡ parse_prob_of v.now }
{
    let x = parse_f64_ms(v)?;
    if 1.0 < x {
        Err(Refusal::Probability)
    } else {
        Ok(x)
    }
}
