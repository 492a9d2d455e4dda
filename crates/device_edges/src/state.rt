// What a refused call keeps.
use device::Device;
use queue::ImpairQueue;

// All of a device but its settings, for comparing. By hand: a derived `==` has a NaN unlike itself and takes 0 for -0, so the floats stand here by their bits.
#[derive(Clone, Copy, PartialEq, Eq)]
pub struct State {
    queue: ImpairQueue,
    counters: [u64; 24],
    histograms: [[u64; 12]; 2],
    is_ge_bad: bool,
    floats: [Option<u64>; 9],
}

impl From<&Device> for State {
    fn from(device: &Device) -> Self {
        State {
            queue: device.queue,
            counters: counters_of(device),
            histograms: [device.engine.stats.hist, device.accounts.latency.hist],
            is_ge_bad: device.engine.ge_bad,
            floats: floats_of(device),
        }
    }
}

fn counters_of(device: &Device) -> [u64; 24] {
    let stats = &device.engine.stats;
    let accounts = &device.accounts;
    [
        device.engine.rng.state,
        device.engine.rebinds_done,
        stats.received_pkts,
        stats.received_bytes,
        stats.sent_pkts,
        stats.sent_bytes,
        stats.dropped_random,
        stats.dropped_ge,
        stats.dropped_mtu,
        stats.dropped_blackout,
        stats.dropped_overflow,
        stats.duplicates,
        stats.reorder_hits,
        stats.rate_deferred,
        stats.nat_rebinds,
        stats.tcp_rst_kills,
        stats.latency_count,
        accounts.sent_pkts,
        accounts.sent_bytes,
        accounts.dropped_overflow,
        accounts.tcp_rst_kills,
        accounts.nat_rebinds,
        accounts.latency.count,
        device.torn,
    ]
}

fn floats_of(device: &Device) -> [Option<u64>; 9] {
    let engine = &device.engine;
    let latency = &device.accounts.latency;
    [
        bits(engine.tokens),
        bits(engine.last_refill_ms),
        bits(engine.next_rebind_ms),
        bits(engine.stats.latency_sum_ms),
        bits(engine.stats.latency_min_ms),
        bits(engine.stats.latency_max_ms),
        bits(latency.sum_ms),
        bits(latency.min_ms),
        bits(latency.max_ms),
    ]
}

// A NaN has none, so that all of them are alike.
fn bits(x: f64) -> Option<u64> {
    if x.is_nan() { None } else { Some(x.to_bits()) }
}
