// A long run of the accounts, as oracle/src/accounts.rs makes it of the Rust source.
use crate::fold::Fold;
use crate::records::Stats;
use accounts::{DirectionStats, SendAccountant};
use draws::Rng;
use std::io;
use std::io::Write;

// A generator, the records of the latencies so far, and the number that their floats were folded into.
#[derive(Clone, Copy)]
struct Run {
    rng: Rng,
    accountant: SendAccountant,
    stats: DirectionStats,
    fold: Fold,
}

// A hundred thousand latencies of either sign up to 16,384 ms, with the bits of every sum, minimum and maximum folded into one number.
pub fn long_run<W: Write>(out: &mut W, seed: u64) -> io::Result<()> {
    let mut run = Run {
        rng: Rng::new(seed),
        accountant: SendAccountant::default(),
        stats: DirectionStats::default(),
        fold: Fold(0),
    };
    for _ in 0..100000u32 {
        run.step();
    }
    let (merged, _) = run.accountant.merge_into(run.stats);
    write!(out, "accounts_run {seed:016x} {:016x}", run.fold.0)?;
    writeln!(out, "{}", Stats(&merged))
}

impl Run {
    // One latency more, of a size that the first draw gives and a part of it that the second gives.
    fn step(&mut self) {
        let (rng, size) = self.rng.next_u64();
        let (rng, part) = rng.next_f64();
        let scale = size % 16384;
        let latency_ms = (part - 0.1) * scale as f64;
        let (accountant, _) = self.accountant.on_send((scale % 2048) as usize, latency_ms);
        let (stats, _) = self.stats.record_delivered(latency_ms * 0.5);
        self.rng = rng;
        self.accountant = accountant;
        self.stats = stats;
        self.fold = self
            .floats()
            .iter()
            .fold(self.fold, |fold, x| fold.with(*x));
    }

    // The floats of both records.
    fn floats(&self) -> [f64; 6] {
        let sent = &self.accountant.latency;
        let delivered = &self.stats;
        [
            sent.sum_ms,
            sent.min_ms,
            sent.max_ms,
            delivered.latency_sum_ms,
            delivered.latency_min_ms,
            delivered.latency_max_ms,
        ]
    }
}
