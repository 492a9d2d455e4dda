ghost use Rattle.std.specs.Prelude.{◌≡◌};
ghost use Rattle.accounts.specs.Accountant.{no_sends, merged_of};
ghost use Rattle.accounts.specs.Counters.{are_counters, accountant_counters};
ghost use Rattle.accounts.specs.Laws.Small.{SmallSends, SmallStats};
ghost use Rattle.accounts.specs.Calls.{on_send_of, merge_into_of};

use crate::latency::LatencyStats;
use crate::stats::DirectionStats;
use crate::{counters, joining, stats};
use numbers::Refusal;

// What was sent, and how long it had waited. The source's statistics have these counters too, so `DirectionStats` has them beside this record.
#[derive(Clone, Copy)]
pub struct SendAccountant {
    pub sent_pkts: u64,
    pub sent_bytes: u64,
    pub dropped_overflow: u64,
    pub tcp_rst_kills: u64,
    pub nat_rebinds: u64,
    pub latency: LatencyStats,
}

// By hand: the clause names the record, where a derived one speaks of each field, and each layer above would have to put them together.
#[tactic(auto, unfolding(crate::specs::Accountant::no_sends))]
impl Default for SendAccountant {
    ghost is_default = { λ a. a ≡ no_sends };

    // Nothing was sent.
    fn default() -> Self {
        SendAccountant {
            sent_pkts: 0,
            sent_bytes: 0,
            dropped_overflow: 0,
            tcp_rst_kills: 0,
            nat_rebinds: 0,
            latency: LatencyStats::default(),
        }
    }
}

impl SendAccountant {
    // Counts a packet of len bytes that was sent with this latency, or refuses by 22 or 25. Document 01 gives calls on a record this form: it goes in by value
    // and comes back beside the answer.
    pub fn on_send(mut self, len: usize, latency_ms: f64) -> (Self, Result<(), Refusal>)
        ensures { result ≡ on_send_of self len latency_ms }
    {
        if !numbers::is_length(len) {
            return (self, Err(Refusal::Length));
        }
        if !self.in_range() {
            return (self, Err(Refusal::Counter));
        }
        self.sent_pkts += 1;
        self.sent_bytes += len as u64;
        self.latency.record(latency_ms);
        (self, Ok(()))
    }

    // Joins the counts and latencies to the statistics that hold the arrivals, or refuses by 25.
    pub fn merge_into(self, st: DirectionStats) -> (DirectionStats, Result<(), Refusal>)
        ensures { result ≡ merge_into_of self st }
    {
        let counted = self.in_range() & st.in_range();
        if !counted {
            return (st, Err(Refusal::Counter));
        }
        (merged(&self, st), Ok(()))
    }

    // Whether refusal 25 lets the counters through: their bits together are below 2^60 where each of them is. Written out, as those of `DirectionStats`.
    pub fn in_range(&self) -> bool
        ensures { result ≡ are_counters (accountant_counters self.now) }
    {
        let bits = counters::counter_bits(&self.latency.hist);
        numbers::is_counter(
            self.sent_pkts
                | self.sent_bytes
                | self.dropped_overflow
                | self.tcp_rst_kills
                | self.nat_rebinds
                | self.latency.count
                | bits,
        )
    }
}

// The statistics with the accountant's counters added and its latencies joined.
#[tactic(auto, unfolding(crate::specs::Accountant::merged_of, crate::specs::Accountant::with_sends))]
fn merged(a: &SendAccountant, mut st: DirectionStats) -> DirectionStats
    requires sends { SmallSends a.now }
    requires stats { SmallStats st }
    ensures { result ≡ merged_of a.now st }
{
    let joined = joining::joined(&LatencyStats::from(&st), &a.latency);
    st.sent_pkts += a.sent_pkts;
    st.sent_bytes += a.sent_bytes;
    st.dropped_overflow += a.dropped_overflow;
    st.tcp_rst_kills += a.tcp_rst_kills;
    st.nat_rebinds += a.nat_rebinds;
    stats::with_latencies(st, &joined)
}
