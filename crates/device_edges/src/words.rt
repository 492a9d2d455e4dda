// A report and a device as words.
use device::{Device, Report};
use output::Bits;
use std::fmt;

// Packets received and sent, overflow, duplicates, resets, the sum of the latencies, and the copies held and torn.
#[derive(Clone, Copy)]
pub struct ReportWords(pub Report);

impl fmt::Display for ReportWords {
    fn fmt<W: fmt::Write>(&self, f: &mut fmt::Formatter<W>) -> fmt::Result {
        let stats = self.0.stats;
        write!(f, "report {} {} ", stats.received_pkts, stats.sent_pkts)?;
        write!(f, "{} {} ", stats.dropped_overflow, stats.duplicates)?;
        write!(f, "{} {} ", stats.tcp_rst_kills, Bits(stats.latency_sum_ms))?;
        write!(f, "held {} torn {}", self.0.held, self.0.torn)
    }
}

// Loss and delay, the state of the generator and the capacity.
#[derive(Clone, Copy)]
pub struct DeviceWords<'a>(pub &'a Device);

impl fmt::Display for DeviceWords<'_> {
    fn fmt<W: fmt::Write>(&self, f: &mut fmt::Formatter<W>) -> fmt::Result {
        let engine = &self.0.engine;
        write!(f, "device {} ", Bits(engine.cfg.loss))?;
        write!(f, "{} ", Bits(engine.cfg.delay_ms))?;
        write!(f, "{:016x} {}", engine.rng.state, self.0.queue.cap)
    }
}
