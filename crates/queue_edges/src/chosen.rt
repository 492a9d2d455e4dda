// The state, the lent memory and the call of a seed.
use crate::{scatter, states};
use queue::{ImpairQueue, Packet};
use queue_calls::{Call, Part, Table};

// The state that the last call left, one whose fields can stand together, or one whose fields are drawn each by itself.
pub fn queue_of(left: ImpairQueue, seed: u64) -> ImpairQueue {
    let cap = scatter::word_of(draws::mix(seed, 31));
    match draws::mix(seed, 30) % 4 {
        0 => left,
        1 => any(cap, seed),
        _ => in_keeping(cap, seed),
    }
}

fn in_keeping(cap: u32, seed: u64) -> ImpairQueue {
    let leaves = up_to(draws::mix(seed, 32), cap);
    let opened = up_to(draws::mix(seed, 33), leaves);
    ImpairQueue {
        cap,
        width: states::WIDTH,
        held: up_to(draws::mix(seed, 34), opened),
        next_seq: seq_of(draws::mix(seed, 35)),
        leaves,
        opened,
    }
}

// The slot width altered: one that slots can have, or one near a limit.
pub fn width_of(seed: u64) -> u32 {
    let widths = [0, 63, 64, 65, 200, 2048, 9216, 9217, u32::MAX];
    let n = (draws::mix(seed, 42) % 9) as usize;
    tables::get(&widths, n, 0)
}

// A number up to a bound, often the bound itself.
fn up_to(n: u64, bound: u32) -> u32 {
    bound.min((n / 4 % 16) as u32)
}

fn any(cap: u32, seed: u64) -> ImpairQueue {
    ImpairQueue {
        cap,
        width: states::WIDTH,
        held: field_of(draws::mix(seed, 32), cap),
        next_seq: seq_of(draws::mix(seed, 35)),
        leaves: field_of(draws::mix(seed, 33), cap),
        opened: field_of(draws::mix(seed, 34), cap),
    }
}

// A number near a limit: 0, the capacity, the greatest capacity that there is, or the greatest number.
fn field_of(n: u64, cap: u32) -> u32 {
    match n % 16 {
        0 => 0,
        1 => u32::MAX,
        2 => 1048576,
        3 => 1048577,
        4 => cap.wrapping_add(1),
        5 => cap.wrapping_sub(1),
        6..=9 => cap,
        _ => (n / 16 % 10) as u32,
    }
}

fn seq_of(n: u64) -> u64 {
    match n % 16 {
        0 => u64::MAX,
        1 => 0x1000_0000_0000_0000,
        2 => 0x0fff_ffff_ffff_ffff,
        _ => n / 16 % 20,
    }
}

// From entry 8 on mostly eight entries of each table; at times fewer, or one table that has one less.
pub fn part_of(seed: u64) -> Part {
    let n = draws::mix(seed, 36);
    Part {
        start: 8,
        entries: match n % 8 {
            0 => (n / 8 % 9) as u32,
            _ => 8,
        },
        width: states::WIDTH,
        short: match n / 128 % 4 {
            0 => table_of(n / 1024),
            _ => None,
        },
    }
}

// A table, or seldom none.
fn table_of(n: u64) -> Option<Table> {
    let place = (n % 10).checked_sub(1)?;
    Table::ALL.get(place as usize).copied()
}

// The bytes are those of a copy that is to enter.
pub fn call_of(seed: u64, bytes: &[u8]) -> Call<'_> {
    let n = draws::mix(seed, 37);
    match n % 16 {
        0..=6 => Call::Push(packet_of(seed), bytes),
        7..=11 => Call::Release(instant_of(n / 16)),
        12..=14 => Call::NextDue,
        _ => Call::Drain,
    }
}

fn packet_of(seed: u64) -> Packet {
    Packet {
        due_ms: scatter::float_of(draws::mix(seed, 38)),
        arrival_ms: instant_of(draws::mix(seed, 39)),
        route: draws::mix(seed, 40),
        copy_id: 1,
        duplicated: false,
    }
}

// Most pass refusal 21.
fn instant_of(n: u64) -> f64 {
    match n % 8 {
        0 => scatter::float_of(n / 8),
        _ => numbers::float_of(n / 8 % 20) * 0.5,
    }
}

// Most pass refusal 22.
pub fn length_of(seed: u64) -> u64 {
    let n = draws::mix(seed, 41);
    match n % 8 {
        0 => n / 8 % 4096,
        1 => 2048,
        2 => 2049,
        _ => n / 8 % 100,
    }
}
