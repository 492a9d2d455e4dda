// The counters of DirectionStats as words, each behind a blank.
use accounts::DirectionStats;
use output::Each;
use std::fmt;

// The packets that came, and their bytes.
#[derive(Clone, Copy)]
pub struct Received<'a>(pub &'a DirectionStats);

// The packets that were dropped, by the cause.
#[derive(Clone, Copy)]
pub struct Dropped<'a>(pub &'a DirectionStats);

// What becomes of packets that are not dropped.
#[derive(Clone, Copy)]
pub struct Others<'a>(pub &'a DirectionStats);

impl<'a> fmt::Display for Received<'a> {
    fn fmt<W: fmt::Write>(&self, f: &mut fmt::Formatter<W>) -> fmt::Result {
        let counts = [self.0.received_pkts, self.0.received_bytes];
        write!(f, "{}", Each(&counts))
    }
}

impl<'a> fmt::Display for Dropped<'a> {
    fn fmt<W: fmt::Write>(&self, f: &mut fmt::Formatter<W>) -> fmt::Result {
        let counts = [
            self.0.dropped_random,
            self.0.dropped_ge,
            self.0.dropped_mtu,
            self.0.dropped_blackout,
            self.0.dropped_overflow,
        ];
        write!(f, "{}", Each(&counts))
    }
}

impl<'a> fmt::Display for Others<'a> {
    fn fmt<W: fmt::Write>(&self, f: &mut fmt::Formatter<W>) -> fmt::Result {
        let counts = [
            self.0.duplicates,
            self.0.reorder_hits,
            self.0.rate_deferred,
            self.0.nat_rebinds,
        ];
        write!(f, "{}", Each(&counts))
    }
}
