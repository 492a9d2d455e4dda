// What the calls answer, summed up, so that none of their work can be left out.
use bench_sums::{add, bits, number};
use device::{Arrived, RefusedReport, Report};
use numbers::Refusal;
use queue::Queued;

// The sum with how many copies entered and overflowed.
pub(crate) fn with_arrival(sum: u64, answer: Result<Arrived, Refusal>) -> u64 {
    match answer {
        Ok(arrived) => add(sum, arrived.entered.wrapping_add(arrived.overflowed << 8)),
        Err(refusal) => add(sum, number(refusal).wrapping_add(1000)),
    }
}

// The bytes of a copy that left go to `sent`. Returned is what the copy adds to the sum, with its due.
fn send(store: &[u8], width: u32, copy: Queued, sent: &mut [u8]) -> u64 {
    bench_sums::send(store, width, copy, sent).wrapping_add(bits(copy.due_ms))
}

// The sum with what left, and with the number of a refusal.
pub(crate) fn with_release(
    sum: u64,
    store: &[u8],
    width: u32,
    answer: Result<Option<Queued>, Refusal>,
    sent: &mut [u8],
) -> u64 {
    match answer {
        Ok(Some(copy)) => add(sum, send(store, width, copy, sent)),
        Ok(None) => sum,
        Err(refusal) => add(sum, number(refusal)),
    }
}

// Whether a copy left; another can be due then.
pub(crate) fn has_left(answer: Result<Option<Queued>, Refusal>) -> bool {
    matches!(answer, Ok(Some(_)))
}

// The sum with the counts and latencies of a report, and with those told beside the refusal of one.
pub(crate) fn with_report(sum: u64, answer: Result<Report, RefusedReport>) -> u64 {
    let report = answer.unwrap_or_else(|refused| refused.report);
    let s = report.stats;
    let counts = [
        s.received_pkts,
        s.received_bytes,
        s.dropped_random,
        s.dropped_overflow,
        s.duplicates,
        s.reorder_hits,
        s.sent_pkts,
        s.sent_bytes,
        s.latency_count,
        bits(s.latency_sum_ms),
        bits(s.latency_min_ms),
        bits(s.latency_max_ms),
        report.held,
    ];
    with_all(with_all(sum, &counts), &s.hist)
}

// The sum with each of these.
fn with_all(sum: u64, counts: &[u64]) -> u64 {
    counts.iter().fold(sum, |sum, count| add(sum, *count))
}
