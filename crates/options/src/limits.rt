// The options of a direction that duplicate packets and limit rate and length.
// Values are read by closures, since a free function of another crate has no proof where it is passed by its name.
ghost use Rattle.std.specs.Prelude.{◌≡◌};
ghost use Rattle.options.specs.Directions.{default_burst_of, burst_of, rate_and_burst_of, mtu_of, limits_of};

use crate::keys::Keys;
use numbers::Refusal;
use values::{parse_bounded, parse_positive, parse_prob};

#[derive(Clone, Copy)]
pub struct Limits {
    pub duplicate_p: f64,
    pub rate_bps: Option<u64>,
    pub rate_burst_bytes: u64,
    pub mtu: Option<usize>,
}

// The least burst of a rate that names none, in bytes.
const LEAST_BURST: u64 = 1500;

// The burst of a rate that names none: what it carries in a second, but not less than the least.
#[tactic(auto, unfolding(crate::specs::Directions::default_burst_of))]
pub fn default_burst(bps: u64) -> u64
    ensures { result ≡ default_burst_of bps }
{
    (bps / 8).max(LEAST_BURST)
}

// The burst that was set, or else the rate's own.
#[tactic(auto, unfolding(crate::specs::Directions::burst_of))]
pub fn burst_of(burst: u64, rate: Option<u64>) -> u64
    ensures { result ≡ burst_of burst rate }
{
    match rate {
        Some(bps) if burst == 0 => default_burst(bps),
        _ => burst,
    }
}

// The rate, and the burst that goes with it.
#[tactic(auto, unfolding(crate::specs::Directions::rate_and_burst_of))]
fn rate_and_burst(keys: Keys) -> Result<(Option<u64>, u64), Refusal>
    ensures { result ≡ rate_and_burst_of keys.entry.text.now keys.entry.prefix.now }
{
    let rate = keys
        .last(b"rate-bps")
        .map(|v| parse_positive(v))
        .transpose()?;
    let burst = keys
        .last(b"rate-burst-bytes")
        .map_or(Ok(0), |v| parse_bounded(v))?;
    Ok((rate, burst_of(burst, rate)))
}

#[tactic(auto, unfolding(crate::specs::Directions::mtu_of))]
fn mtu_of(keys: Keys) -> Result<Option<usize>, Refusal>
    ensures { result ≡ mtu_of keys.entry.text.now keys.entry.prefix.now }
{
    let mtu = keys.last(b"mtu").map(|v| parse_positive(v)).transpose()?;
    Ok(mtu.map(|most| most as usize))
}

#[tactic(auto, using(numbers::specs::Laws::Literals::zero_is), unfolding(crate::specs::Directions::limits_of))]
pub fn limits_of(keys: Keys) -> Result<Limits, Refusal>
    ensures { result ≡ limits_of keys.entry.text.now keys.entry.prefix.now }
{
    let duplicate_p = keys.last(b"duplicate").map_or(Ok(0.0), |v| parse_prob(v))?;
    let (rate_bps, rate_burst_bytes) = rate_and_burst(keys)?;
    let mtu = mtu_of(keys)?;
    Ok(Limits {
        duplicate_p,
        rate_bps,
        rate_burst_bytes,
        mtu,
    })
}
