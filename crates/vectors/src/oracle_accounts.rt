// The lines that oracle/src/accounts.rs prints of the Rust source.
use crate::held::{HELD, Held};
use crate::latencies::LATENCIES_MS;
use crate::records::{Sends, Stats};
use crate::{accounts_run, samples};
use accounts::{DirectionStats, SendAccountant};
use output::{Answered, Bits};
use std::io;
use std::io::Write;

// The records that a latency is counted on.
#[derive(Clone, Copy, Default)]
struct Records {
    accountant: SendAccountant,
    stats: DirectionStats,
}

impl Records {
    fn count<W: Write>(&mut self, out: &mut W, len: usize, latency_ms: f64) -> io::Result<()> {
        send(out, &mut self.accountant, len, latency_ms)?;
        deliver(out, &mut self.stats, latency_ms)
    }
}

// Each latency on records that have none yet, and all of them one after the other from the first and from the last, a NaN.
pub fn runs<W: Write>(out: &mut W) -> io::Result<()> {
    let mut forwards = Records {
        accountant: SendAccountant::default(),
        stats: samples::some_stats(0, HELD[0]),
    };
    let mut backwards = Records {
        accountant: samples::some_sends(0, HELD[0]),
        stats: DirectionStats::default(),
    };
    let opposite = LATENCIES_MS.iter().rev();
    for ((k, first_ms), last_ms) in LATENCIES_MS.iter().enumerate().zip(opposite) {
        Records::default().count(out, 100, *first_ms)?;
        forwards.count(out, k, *first_ms)?;
        backwards.count(out, 2048 - k, *last_ms)?;
    }
    Ok(())
}

// Every pair of eight floats, as what the records hold, and as that and the latency.
pub fn pairs<W: Write>(out: &mut W) -> io::Result<()> {
    for held in HELD {
        pairs_with(out, held)?;
    }
    Ok(())
}

fn pairs_with<W: Write>(out: &mut W, held: Held) -> io::Result<()> {
    for other in HELD {
        states(out, held, other.min_ms)?;
        merges(out, held, other)?;
    }
    Ok(())
}

// The latency on records that hold the floats, with and without latencies before it.
fn states<W: Write>(out: &mut W, held: Held, latency_ms: f64) -> io::Result<()> {
    send(out, &mut samples::some_sends(0, held), 7, latency_ms)?;
    send(out, &mut samples::some_sends(5, held), 7, latency_ms)?;
    deliver(out, &mut samples::some_stats(0, held), latency_ms)?;
    deliver(out, &mut samples::some_stats(3, held), latency_ms)
}

// A target and an accountant that hold these floats, each with and without latencies.
fn merges<W: Write>(out: &mut W, target: Held, sent: Held) -> io::Result<()> {
    for (count, sends) in [(0, 0), (0, 5), (3, 0), (3, 5)] {
        merge(
            out,
            samples::some_stats(count, target),
            samples::some_sends(sends, sent),
        )?;
    }
    Ok(())
}

// Records whose counters are all the greatest.
pub fn full_records<W: Write>(out: &mut W) -> io::Result<()> {
    send(out, &mut samples::full_sends(), 2048, 0.5)?;
    deliver(out, &mut samples::full_stats(), 0.5)?;
    merge(out, samples::full_stats(), samples::full_sends())
}

pub fn totals<W: Write>(out: &mut W) -> io::Result<()> {
    total(out, &DirectionStats::default())?;
    total(out, &samples::some_stats(0, HELD[0]))?;
    total(out, &samples::full_stats())
}

pub fn long_runs<W: Write>(out: &mut W) -> io::Result<()> {
    for seed in 1..=8 {
        accounts_run::long_run(out, seed)?;
    }
    Ok(())
}

// Packets that are longer than 2,048 bytes.
pub fn wide_packets<W: Write>(out: &mut W) -> io::Result<()> {
    for len in [2049, 9215, 9216] {
        send(out, &mut samples::full_sends(), len, 0.5)?;
    }
    Ok(())
}

// Sends a packet, and prints the accountant.
fn send<W: Write>(
    out: &mut W,
    a: &mut SendAccountant,
    len: usize,
    latency_ms: f64,
) -> io::Result<()> {
    let (after, _) = a.on_send(len, latency_ms);
    *a = after;
    write!(out, "on_send {len} {}", Bits(latency_ms))?;
    writeln!(out, "{}", Sends(a))
}

// Counts a delivered packet, and prints the statistics.
fn deliver<W: Write>(out: &mut W, s: &mut DirectionStats, latency_ms: f64) -> io::Result<()> {
    let (after, _) = s.record_delivered(latency_ms);
    *s = after;
    write!(out, "record_delivered {}", Bits(latency_ms))?;
    writeln!(out, "{}", Stats(s))
}

// Merges, and prints the target. Of two zeros as maximum Rust may take either, so both get the target's.
fn merge<W: Write>(out: &mut W, s: DirectionStats, mut a: SendAccountant) -> io::Result<()> {
    if s.latency_max_ms == 0.0 && a.latency.max_ms == 0.0 {
        a.latency.max_ms = s.latency_max_ms;
    }
    let (merged, _) = a.merge_into(s);
    writeln!(out, "merge_into{}", Stats(&merged))
}

fn total<W: Write>(out: &mut W, s: &DirectionStats) -> io::Result<()> {
    writeln!(out, "total_dropped {}", Answered(s.total_dropped()))
}
