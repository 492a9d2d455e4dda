// Ten million packets arrive at an engine of an option text's c2s settings, and what was decided is summed up, so that
// the work cannot be left out.
use accounts::DirectionStats;
use bench_sums::{bits, number};
use engine::ArrivalEngine;
use numbers::Refusal;
use std::io;
use std::io::Write;
use steps::Decision;

pub fn run<W: Write>(text: &[u8], out: &mut W) -> io::Result<()> {
    let (config, _) = options::parse_config(text);
    let (mut engine, _) = ArrivalEngine::new(config.c2s, 1);
    let mut now_ms = 0.0;
    let mut sum: u64 = 0;
    for i in 0..10000000usize {
        let answer = engine.decide_judged_in_place(now_ms, i % 1500);
        sum = sum.wrapping_add(weight(answer));
        now_ms += 0.001;
    }
    print_counts(&engine.stats, out)?;
    writeln!(out, "{sum}")
}

// The bits of the due; a small number for each other answer.
fn weight(answer: Result<Decision, Refusal>) -> u64 {
    match answer {
        Ok(decision) => decision_weight(decision),
        Err(refusal) => number(refusal),
    }
}

fn decision_weight(decision: Decision) -> u64 {
    match decision {
        Decision::DropRandom => 1,
        Decision::DropGe => 2,
        Decision::DropMtu => 3,
        Decision::DropBlackout => 4,
        Decision::DropKillHold => 5,
        Decision::Enqueue { due_ms, .. } => bits(due_ms),
        Decision::KillRst => 6,
    }
}

fn print_counts<W: Write>(s: &DirectionStats, out: &mut W) -> io::Result<()> {
    writeln!(out, "{}\n{}", s.received_pkts, s.received_bytes)?;
    writeln!(out, "{}\n{}", s.dropped_random, s.dropped_blackout)?;
    writeln!(out, "{}\n{}", s.duplicates, s.reorder_hits)?;
    writeln!(out, "{}", s.rate_deferred)
}
