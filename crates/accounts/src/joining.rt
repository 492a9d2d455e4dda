ghost use Rattle.std.specs.Prelude.{◌≡◌, true};
ghost use Rattle.accounts.specs.Latency.{joined_minimum_of, joined_maximum_of, sums, joined_of};
ghost use Rattle.accounts.specs.Counters.{are_counters, latency_counters};

use crate::buckets::N_BUCKETS;
use crate::latency::LatencyStats;

// The target with the latencies of another record joined.
#[tactic(auto, unfolding(crate::specs::Latency::joined_of))]
pub(crate) fn joined(target: &LatencyStats, l: &LatencyStats) -> LatencyStats
    requires { (are_counters (latency_counters target.now) ≡ true) × (are_counters (latency_counters l.now) ≡ true) }
    ensures { result ≡ joined_of target.now l.now }
{
    let hist = joined_hist(target.hist, &l.hist);
    LatencyStats {
        count: target.count + l.count,
        sum_ms: target.sum_ms + l.sum_ms,
        min_ms: joined_minimum(target, l),
        max_ms: joined_maximum(target, l),
        hist,
    }
}

// The minimum of the joined record.
fn joined_minimum(target: &LatencyStats, l: &LatencyStats) -> f64
    ensures { result ≡ joined_minimum_of target.now l.now }
{
    if l.count == 0 {
        return target.min_ms;
    }
    if target.min_ms == 0.0 {
        return l.min_ms;
    }
    if target.count == 0 {
        numbers::minimum(target.min_ms, l.min_ms)
    } else {
        target.min_ms
    }
}

// The maximum of the joined record.
#[tactic(auto, unfolding(crate::specs::Latency::joined_maximum_of))]
fn joined_maximum(target: &LatencyStats, l: &LatencyStats) -> f64
    ensures { result ≡ joined_maximum_of target.now l.now }
{
    if l.count == 0 {
        target.max_ms
    } else {
        numbers::maximum(target.max_ms, l.max_ms)
    }
}

// The sums of two histograms, bucket by bucket. By index, as in the source: through `iter_mut().zip(..)` a proof loses the elements.
fn joined_hist(mut target: [u64; N_BUCKETS], hist: &[u64; N_BUCKETS]) -> [u64; N_BUCKETS]
    requires { (are_counters target ≡ true) × (are_counters hist.now ≡ true) }
    ensures { result ≡ sums target hist.now }
{
    for i in 0..N_BUCKETS {
        target[i] += hist[i];
    }
    target
}
