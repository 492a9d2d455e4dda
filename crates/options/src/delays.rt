// The options of a direction that delay packets.
// Values are read by closures, since a free function of another crate has no proof where it is passed by its name.
ghost use Rattle.std.specs.Prelude.{◌≡◌};
ghost use Rattle.options.specs.Directions.{delay_and_jitter_of, delayed_of, reorder_delay_of, reordering_of, delays_of};

use crate::keys::Keys;
use numbers::Refusal;
use values::{parse_f64_ms, parse_prob};

#[derive(Clone, Copy)]
pub struct Delays {
    pub delay_ms: f64,
    pub jitter_ms: f64,
    pub reorder_p: f64,
    pub reorder_delay_ms: f64,
}

// The delay and the jitter.
#[tactic(auto, using(numbers::specs::Laws::Literals::zero_is), unfolding(crate::specs::Directions::delay_and_jitter_of))]
fn delay_and_jitter(keys: Keys) -> Result<(f64, f64), Refusal>
    ensures { result ≡ delay_and_jitter_of keys.entry.text.now keys.entry.prefix.now }
{
    let delay_ms = keys.last(b"delay-ms").map_or(Ok(0.0), |v| parse_f64_ms(v))?;
    let jitter_ms = keys
        .last(b"jitter-ms")
        .map_or(Ok(0.0), |v| parse_f64_ms(v))?;
    Ok((delay_ms, jitter_ms))
}

// Reordering of this probability and delay; without a delay it is refused.
#[tactic(auto, using(numbers::specs::Laws::Literals::zero_is), unfolding(crate::specs::Directions::delayed_of))]
fn delayed(reorder_p: f64, reorder_delay_ms: f64) -> Result<(f64, f64), Refusal>
    ensures { result ≡ delayed_of reorder_p reorder_delay_ms }
{
    if 0.0 < reorder_p && reorder_delay_ms <= 0.0 {
        Err(Refusal::Reorder)
    } else {
        Ok((reorder_p, reorder_delay_ms))
    }
}

// How long a packet that is reordered is delayed.
fn reorder_delay(keys: Keys) -> Result<f64, Refusal>
    ensures { result ≡ reorder_delay_of keys.entry.text.now keys.entry.prefix.now }
{
    keys.last(b"reorder-delay-ms")
        .map_or(Ok(0.0), |v| parse_f64_ms(v))
}

// The probability and the delay of reordering.
#[tactic(auto, using(numbers::specs::Laws::Literals::zero_is), unfolding(crate::specs::Directions::reordering_of))]
fn reordering(keys: Keys) -> Result<(f64, f64), Refusal>
    ensures { result ≡ reordering_of keys.entry.text.now keys.entry.prefix.now }
{
    let reorder_p = keys.last(b"reorder").map_or(Ok(0.0), |v| parse_prob(v))?;
    let reorder_delay_ms = reorder_delay(keys)?;
    delayed(reorder_p, reorder_delay_ms)
}

#[tactic(auto, unfolding(crate::specs::Directions::delays_of))]
pub fn delays_of(keys: Keys) -> Result<Delays, Refusal>
    ensures { result ≡ delays_of keys.entry.text.now keys.entry.prefix.now }
{
    let (delay_ms, jitter_ms) = delay_and_jitter(keys)?;
    let (reorder_p, reorder_delay_ms) = reordering(keys)?;
    Ok(Delays {
        delay_ms,
        jitter_ms,
        reorder_p,
        reorder_delay_ms,
    })
}
