// The loop of arrivals and releases. Each call stands once in the program: where an arrival is called from two places and so is not inlined, a round takes
// 111 instructions more (9 in 100), and the ratio to the Rust is not to rise.
use crate::sums;
use device::Device;
use queue::{Rows, RowsMut, TreeMut};

// The instant goes on by so much from one arrival to the next, in milliseconds.
const STEP_MS: f64 = 0.01;

// So many packets of the source arrive in turns.
const SOURCES: u64 = 16;

// A packet of `length` bytes arrives `count` times, and each time all that is due leaves; the packets of the source lie one behind the other. Returned is the
// sum of what entered and what left.
// The lent parts are parameters one by one: as one struct, a round took 140 instructions more (11 in 100), and the ratio to the Rust is not to rise.
pub(crate) fn run(
    device: &mut Device,
    tree: &mut TreeMut<'_>,
    free: &mut [u32],
    rows: &mut RowsMut<'_>,
    source: &[u8],
    sent: &mut [u8],
    length: u32,
    count: u64,
) -> u64 {
    let mut now_ms = 0.0;
    let mut sum: u64 = 0;
    for left in (1..=count).rev() {
        let bytes = tables::part(source, length, (left % SOURCES) as u32, length as usize);
        let arrived = device.arrive_in_place(tree, free, rows, now_ms, bytes, left);
        sum = sums::with_arrival(sum, arrived);
        sum = release(device, tree, free, rows.shared(), sent, now_ms, sum);
        now_ms += STEP_MS;
    }
    sum
}

// All that is due leaves. Returned is the sum with what left.
fn release(
    device: &mut Device,
    tree: &mut TreeMut<'_>,
    free: &mut [u32],
    rows: Rows<'_>,
    sent: &mut [u8],
    now_ms: f64,
    mut sum: u64,
) -> u64 {
    for _ in 0..device.queue.held {
        let released = device.release_in_place(tree, free, rows, now_ms);
        sum = sums::with_release(sum, rows.store, device.queue.width, released, sent);
        if !sums::has_left(released) {
            break;
        }
    }
    sum
}
