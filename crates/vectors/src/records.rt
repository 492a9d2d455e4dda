// Records of the accounts as text: every counter in decimal, every float by its bits, each behind a blank.
use accounts::{DirectionStats, LatencyStats, SendAccountant};
use output::{Bits, Each};
use std::fmt;

#[derive(Clone, Copy)]
pub struct Sends<'a>(pub &'a SendAccountant);

impl fmt::Display for Sends<'_> {
    fn fmt<W: fmt::Write>(&self, f: &mut fmt::Formatter<W>) -> fmt::Result {
        let a = self.0;
        let counts = [
            a.sent_pkts,
            a.sent_bytes,
            a.dropped_overflow,
            a.tcp_rst_kills,
            a.nat_rebinds,
        ];
        write!(f, "{}{}", Each(&counts), Latencies(a.latency))
    }
}

#[derive(Clone, Copy)]
pub struct Stats<'a>(pub &'a DirectionStats);

impl fmt::Display for Stats<'_> {
    fn fmt<W: fmt::Write>(&self, f: &mut fmt::Formatter<W>) -> fmt::Result {
        let s = self.0;
        let counts = [
            s.received_pkts,
            s.received_bytes,
            s.sent_pkts,
            s.sent_bytes,
            s.dropped_random,
            s.dropped_ge,
            s.dropped_mtu,
            s.dropped_blackout,
            s.dropped_overflow,
            s.duplicates,
            s.reorder_hits,
            s.rate_deferred,
            s.nat_rebinds,
            s.tcp_rst_kills,
        ];
        let latencies = LatencyStats::from(s);
        write!(f, "{}{}", Each(&counts), Latencies(latencies))
    }
}

// The latencies, which are the last of a record.
#[derive(Clone, Copy)]
struct Latencies(LatencyStats);

impl fmt::Display for Latencies {
    fn fmt<W: fmt::Write>(&self, f: &mut fmt::Formatter<W>) -> fmt::Result {
        let l = &self.0;
        write!(f, " {} {}", l.count, Bits(l.sum_ms))?;
        write!(f, " {} {}", Bits(l.min_ms), Bits(l.max_ms))?;
        write!(f, "{}", Each(&l.hist))
    }
}
