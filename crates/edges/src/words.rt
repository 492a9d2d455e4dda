// The state of an engine as words.
use engine::ArrivalEngine;
use output::Bits;
use std::fmt;

// The credit, the instant of the last refill, and the packets received.
#[derive(Clone, Copy)]
pub struct Bucket<'a>(pub &'a ArrivalEngine);

impl<'a> fmt::Display for Bucket<'a> {
    fn fmt<W: fmt::Write>(&self, f: &mut fmt::Formatter<W>) -> fmt::Result {
        let engine = self.0;
        write!(f, "{} {}", Bits(engine.tokens), Bits(engine.last_refill_ms))?;
        write!(f, " {}", engine.stats.received_pkts)
    }
}

// The state of the generator, and whether burst loss is on.
#[derive(Clone, Copy)]
pub struct Generator<'a>(pub &'a ArrivalEngine);

impl<'a> fmt::Display for Generator<'a> {
    fn fmt<W: fmt::Write>(&self, f: &mut fmt::Formatter<W>) -> fmt::Result {
        let engine = self.0;
        write!(f, "{:016x} {}", engine.rng.state, u8::from(engine.ge_bad))
    }
}

// The next rebind, and the rebinds counted.
#[derive(Clone, Copy)]
pub struct Rebinds<'a>(pub &'a ArrivalEngine);

impl<'a> fmt::Display for Rebinds<'a> {
    fn fmt<W: fmt::Write>(&self, f: &mut fmt::Formatter<W>) -> fmt::Result {
        let engine = self.0;
        write!(
            f,
            "{} {}",
            Bits(engine.next_rebind_ms),
            engine.stats.nat_rebinds
        )
    }
}
