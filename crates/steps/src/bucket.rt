// The token bucket, in bytes of credit.
ghost use Rattle.std.specs.Prelude.{◌≡◌};
ghost use Rattle.numbers.specs.Whole.{whole};
ghost use Rattle.numbers.specs.Credit.{refilled_of};
ghost use Rattle.steps.specs.Bucket.{bucket_capacity_of, charged_of, last_refill_of, is_deferred_of};

use crate::arrival::ArrivalState;
use options::DirectionConfig;

// The credit of a full bucket: the burst that was set, or else the rate's own.
#[tactic(auto, unfolding(crate::specs::Bucket::bucket_capacity_of, crate::specs::Bucket::rate_capacity_of, options::specs::Directions::burst_of))]
pub fn bucket_capacity(rate: Option<u64>, rate_burst_bytes: u64) -> u64
    ensures { result ≡ bucket_capacity_of rate rate_burst_bytes }
{
    options::burst_of(rate_burst_bytes, rate)
}

// The credit after some milliseconds, up to the capacity.
#[tactic(auto, using(numbers::specs::Laws::Literals::eight_thousand_is), unfolding(numbers::specs::Credit::refilled_of))]
fn refilled(tokens: f64, elapsed_ms: f64, bps: u64, capacity: u64) -> f64
    ensures { result ≡ refilled_of tokens elapsed_ms (whole bps) (whole capacity) }
{
    let rate = numbers::float_of(bps);
    let cap = numbers::float_of(capacity);
    numbers::minimum(tokens + elapsed_ms * rate / 8000.0, cap)
}

// The credit after the refill and the packet's charge.
#[tactic(auto, using(numbers::specs::Laws::Literals::zero_is), unfolding(crate::specs::Bucket::charged_of))]
pub(crate) fn charged(c: &DirectionConfig, s: ArrivalState, now_ms: f64, len: usize) -> f64
    ensures { result ≡ charged_of s.tokens s.last_refill_ms c.now.rate_bps c.now.rate_burst_bytes now_ms len }
{
    match c.rate_bps {
        None => s.tokens,
        Some(bps) => {
            let elapsed_ms = numbers::maximum(now_ms - s.last_refill_ms, 0.0);
            let capacity = bucket_capacity(c.rate_bps, c.rate_burst_bytes);
            refilled(s.tokens, elapsed_ms, bps, capacity) - numbers::float_of(len as u64)
        }
    }
}

// The instant of the last refill, after an arrival.
#[tactic(auto, unfolding(crate::specs::Bucket::last_refill_of))]
pub(crate) fn last_refill(last_refill_ms: f64, rate: Option<u64>, now_ms: f64) -> f64
    ensures { result ≡ last_refill_of last_refill_ms rate now_ms }
{
    if rate.is_some() {
        now_ms
    } else {
        last_refill_ms
    }
}

// Whether the charge left a debt.
#[tactic(auto, using(numbers::specs::Laws::Literals::zero_is), unfolding(crate::specs::Bucket::is_deferred_of))]
pub(crate) fn is_deferred(rate: Option<u64>, tokens: f64) -> bool
    ensures { result ≡ is_deferred_of rate tokens }
{
    rate.is_some() && tokens < 0.0
}
