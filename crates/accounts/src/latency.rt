ghost use Rattle.std.specs.Prelude.{◌≡◌, true};
ghost use Rattle.accounts.specs.Latency.{no_latencies, minimum_with_of, maximum_with_of, recorded_of};
ghost use Rattle.accounts.specs.Counters.{are_counters, latency_counters};

use crate::buckets;
use crate::buckets::N_BUCKETS;

// How many latencies there were, their sum, minimum and maximum, and their histogram.
#[derive(Clone, Copy)]
pub struct LatencyStats {
    pub count: u64,
    pub sum_ms: f64,
    pub min_ms: f64,
    pub max_ms: f64,
    pub hist: [u64; N_BUCKETS],
}

// By hand: the clause names the record, where a derived one speaks of each field, and each layer above would have to put them together.
impl Default for LatencyStats {
    ghost is_default = { λ l. l ≡ no_latencies };

    // No latencies.
    fn default() -> Self {
        LatencyStats {
            count: 0,
            sum_ms: 0.0,
            min_ms: 0.0,
            max_ms: 0.0,
            hist: [0; N_BUCKETS],
        }
    }
}

impl LatencyStats {
    // Counts one latency more.
    pub(crate) fn record(&mut self, latency_ms: f64)
        requires { are_counters (latency_counters self.old) ≡ true }
        ensures { self.new ≡ recorded_of self.old latency_ms }
    {
        self.min_ms = minimum_with(self.count, self.min_ms, latency_ms);
        self.max_ms = maximum_with(self.max_ms, latency_ms);
        self.count += 1;
        self.sum_ms += latency_ms;
        self.hist[buckets::bucket_index(latency_ms)] += 1;
    }
}

// The minimum with one latency more: the first sets it, and after that a lower one.
#[tactic(auto, unfolding(crate::specs::Latency::minimum_with_of))]
fn minimum_with(count: u64, min_ms: f64, latency_ms: f64) -> f64
    ensures { result ≡ minimum_with_of count min_ms latency_ms }
{
    if count == 0 {
        return latency_ms;
    }
    if latency_ms < min_ms {
        latency_ms
    } else {
        min_ms
    }
}

// The maximum with one latency more. Apart from `minimum_with`, as in the source: the first latency does not set the maximum.
#[tactic(auto, unfolding(crate::specs::Latency::maximum_with_of))]
fn maximum_with(max_ms: f64, latency_ms: f64) -> f64
    ensures { result ≡ maximum_with_of max_ms latency_ms }
{
    if latency_ms > max_ms {
        latency_ms
    } else {
        max_ms
    }
}
