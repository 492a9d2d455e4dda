// Records for the comparison with the Rust source.
use crate::held::Held;
use accounts::{DirectionStats, LatencyStats, SendAccountant};

// The least number that is refused as a counter, by refusal 25: 2^60, the tests' own figure, written apart from the code on purpose.
pub const COUNTER_LIMIT: u64 = 0x1000_0000_0000_0000;

const GREATEST_COUNTER: u64 = COUNTER_LIMIT - 1;

// An accountant whose counters all differ, with this count of latencies and these floats.
pub fn some_sends(count: u64, held: Held) -> SendAccountant {
    SendAccountant {
        sent_pkts: 7,
        sent_bytes: 11,
        dropped_overflow: 13,
        tcp_rst_kills: 17,
        nat_rebinds: 19,
        latency: LatencyStats {
            count,
            sum_ms: held.sum_ms,
            min_ms: held.min_ms,
            max_ms: held.max_ms,
            hist: [31, 32, 33, 34, 35, 36, 37, 38, 39, 40, 41, 42],
        },
    }
}

// Statistics whose counters all differ, with this count of latencies and these floats.
pub fn some_stats(count: u64, held: Held) -> DirectionStats {
    DirectionStats {
        received_pkts: 100,
        received_bytes: 201,
        sent_pkts: 302,
        sent_bytes: 403,
        dropped_random: 504,
        dropped_ge: 605,
        dropped_mtu: 706,
        dropped_blackout: 807,
        dropped_overflow: 908,
        duplicates: 1009,
        reorder_hits: 1110,
        rate_deferred: 1211,
        nat_rebinds: 1312,
        tcp_rst_kills: 1413,
        latency_count: count,
        latency_sum_ms: held.sum_ms,
        latency_min_ms: held.min_ms,
        latency_max_ms: held.max_ms,
        hist: [51, 52, 53, 54, 55, 56, 57, 58, 59, 60, 61, 62],
    }
}

// An accountant whose counters are all the greatest.
pub fn full_sends() -> SendAccountant {
    SendAccountant {
        sent_pkts: GREATEST_COUNTER,
        sent_bytes: GREATEST_COUNTER,
        dropped_overflow: GREATEST_COUNTER,
        tcp_rst_kills: GREATEST_COUNTER,
        nat_rebinds: GREATEST_COUNTER,
        latency: LatencyStats {
            count: GREATEST_COUNTER,
            sum_ms: 8.0,
            min_ms: 1.0,
            max_ms: 4.0,
            hist: [GREATEST_COUNTER; 12],
        },
    }
}

// Statistics whose counters are all the greatest.
pub fn full_stats() -> DirectionStats {
    DirectionStats {
        received_pkts: GREATEST_COUNTER,
        received_bytes: GREATEST_COUNTER,
        sent_pkts: GREATEST_COUNTER,
        sent_bytes: GREATEST_COUNTER,
        dropped_random: GREATEST_COUNTER,
        dropped_ge: GREATEST_COUNTER,
        dropped_mtu: GREATEST_COUNTER,
        dropped_blackout: GREATEST_COUNTER,
        dropped_overflow: GREATEST_COUNTER,
        duplicates: GREATEST_COUNTER,
        reorder_hits: GREATEST_COUNTER,
        rate_deferred: GREATEST_COUNTER,
        nat_rebinds: GREATEST_COUNTER,
        tcp_rst_kills: GREATEST_COUNTER,
        latency_count: GREATEST_COUNTER,
        latency_sum_ms: 16.0,
        latency_min_ms: 2.0,
        latency_max_ms: 3.0,
        hist: [GREATEST_COUNTER; 12],
    }
}
