ghost use Rattle.std.specs.Prelude.{◌≡◌};
ghost use Rattle.accounts.specs.Stats.{no_stats, latencies_of, with_latencies_of};
ghost use Rattle.accounts.specs.Counters.{are_counters, stats_counters};
ghost use Rattle.accounts.specs.Calls.{record_delivered_of, total_dropped_of};

use crate::buckets::N_BUCKETS;
use crate::counters;
use crate::latency::LatencyStats;
use numbers::Refusal;

// What happened in one direction. The source has the latencies here field by field, and not as a record of their own.
#[derive(Clone, Copy)]
pub struct DirectionStats {
    pub received_pkts: u64,
    pub received_bytes: u64,
    pub sent_pkts: u64,
    pub sent_bytes: u64,
    pub dropped_random: u64,
    pub dropped_ge: u64,
    pub dropped_mtu: u64,
    pub dropped_blackout: u64,
    pub dropped_overflow: u64,
    pub duplicates: u64,
    pub reorder_hits: u64,
    pub rate_deferred: u64,
    pub nat_rebinds: u64,
    pub tcp_rst_kills: u64,
    pub latency_count: u64,
    pub latency_sum_ms: f64,
    pub latency_min_ms: f64,
    pub latency_max_ms: f64,
    pub hist: [u64; N_BUCKETS],
}

// By hand: the clause names the record, where a derived one speaks of each field, and each layer above would have to put them together.
impl Default for DirectionStats {
    ghost is_default = { λ s. s ≡ no_stats };

    // Nothing has happened.
    fn default() -> Self {
        DirectionStats {
            received_pkts: 0,
            received_bytes: 0,
            sent_pkts: 0,
            sent_bytes: 0,
            dropped_random: 0,
            dropped_ge: 0,
            dropped_mtu: 0,
            dropped_blackout: 0,
            dropped_overflow: 0,
            duplicates: 0,
            reorder_hits: 0,
            rate_deferred: 0,
            nat_rebinds: 0,
            tcp_rst_kills: 0,
            latency_count: 0,
            latency_sum_ms: 0.0,
            latency_min_ms: 0.0,
            latency_max_ms: 0.0,
            hist: [0; N_BUCKETS],
        }
    }
}

impl DirectionStats {
    // Counts the latency of a delivered packet, or refuses by 25. The record comes back beside the answer, as document 01 has it.
    pub fn record_delivered(self, latency_ms: f64) -> (Self, Result<(), Refusal>)
        ensures { result ≡ record_delivered_of self latency_ms }
    {
        if !self.in_range() {
            return (self, Err(Refusal::Counter));
        }
        let mut recorded = LatencyStats::from(&self);
        recorded.record(latency_ms);
        (with_latencies(self, &recorded), Ok(()))
    }

    // How many packets were dropped, or the refusal 25.
    pub fn total_dropped(&self) -> Result<u64, Refusal>
        ensures { result ≡ total_dropped_of self.now }
    {
        if !self.in_range() {
            return Err(Refusal::Counter);
        }
        Ok(
            self.dropped_random
                + self.dropped_ge
                + self.dropped_mtu
                + self.dropped_blackout
                + self.dropped_overflow,
        )
    }

    // Whether refusal 25 lets the counters through: their bits together are below 2^60 where each of them is. Written out: an
    // array to be folded would list the same names.
    pub fn in_range(&self) -> bool
        ensures { result ≡ are_counters (stats_counters self.now) }
    {
        let bits = counters::counter_bits(&self.hist);
        numbers::is_counter(
            self.received_pkts
                | self.received_bytes
                | self.sent_pkts
                | self.sent_bytes
                | self.dropped_random
                | self.dropped_ge
                | self.dropped_mtu
                | self.dropped_blackout
                | self.dropped_overflow
                | self.duplicates
                | self.reorder_hits
                | self.rate_deferred
                | self.nat_rebinds
                | self.tcp_rst_kills
                | self.latency_count
                | bits,
        )
    }
}

// The latencies among the statistics.
#[tactic(auto, unfolding(crate::specs::Stats::latencies_of))]
impl From<&DirectionStats> for LatencyStats {
    ghost from_gives = { λ s l. l ≡ latencies_of s.now };

    fn from(s: &DirectionStats) -> LatencyStats {
        LatencyStats {
            count: s.latency_count,
            sum_ms: s.latency_sum_ms,
            min_ms: s.latency_min_ms,
            max_ms: s.latency_max_ms,
            hist: s.hist,
        }
    }
}

// The statistics with these latencies in place of their own.
#[tactic(auto, unfolding(crate::specs::Stats::with_latencies_of))]
pub(crate) fn with_latencies(mut s: DirectionStats, l: &LatencyStats) -> DirectionStats
    ensures { result ≡ with_latencies_of s l.now }
{
    let hist = l.hist;
    s.latency_count = l.count;
    s.latency_sum_ms = l.sum_ms;
    s.latency_min_ms = l.min_ms;
    s.latency_max_ms = l.max_ms;
    s.hist = hist;
    s
}
