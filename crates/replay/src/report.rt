// A report as words, each behind a blank.
use accounts::DirectionStats;
use device::Report;
use engine_words::stats::{Dropped, Others, Received};
use output::{Bits, Each};
use std::fmt;

// The statistics, and the copies held and torn.
#[derive(Clone, Copy)]
pub struct Reported(pub Report);

impl fmt::Display for Reported {
    fn fmt<W: fmt::Write>(&self, f: &mut fmt::Formatter<W>) -> fmt::Result {
        let stats = &self.0.stats;
        write!(f, "report{}", Received(stats))?;
        write!(f, " {} {}", stats.sent_pkts, stats.sent_bytes)?;
        write!(f, "{}{}", Dropped(stats), Others(stats))?;
        write!(f, " {} {}", stats.tcp_rst_kills, stats.latency_count)?;
        write!(f, "{}", Latencies(stats))?;
        write!(f, " held {} torn {}", self.0.held, self.0.torn)
    }
}

// The buckets, the sum, the minimum and the maximum of the latencies.
#[derive(Clone, Copy)]
struct Latencies<'a>(&'a DirectionStats);

impl<'a> fmt::Display for Latencies<'a> {
    fn fmt<W: fmt::Write>(&self, f: &mut fmt::Formatter<W>) -> fmt::Result {
        let stats = self.0;
        write!(f, "{} {}", Each(&stats.hist), Bits(stats.latency_sum_ms))?;
        write!(f, " {}", Bits(stats.latency_min_ms))?;
        write!(f, " {}", Bits(stats.latency_max_ms))
    }
}
