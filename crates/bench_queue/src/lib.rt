// The benchmark's loop of the queue, over memory that a driver in Rust lends.
#![tactic(auto)]

mod lent;
mod turns;

use lent::Lent;
use queue::{ImpairQueue, RowsMut, TreeMut};
use turns::{Turns, WIDTH};

// A copy enters `count` times, and whenever more than `held` are held then, one leaves. Returned is a sum of what left.
// The C interface: the driver in Rust passes each table as a pointer and a length, so each is a parameter.
#[unsafe(no_mangle)]
pub extern "C" fn bench_queue(
    win: &mut [u32],
    free: &mut [u32],
    dues: &mut [f64],
    seqs: &mut [u64],
    arrivals: &mut [f64],
    routes: &mut [u64],
    copy_ids: &mut [u32],
    lengths: &mut [u32],
    store: &mut [u8],
    source: &[u8],
    sent: &mut [u8],
    cap: usize,
    held: usize,
    count: u64,
    seed: u64,
) -> u64 {
    let tree = TreeMut { win, dues, seqs };
    let rows = RowsMut {
        arrivals,
        routes,
        copy_ids,
        lengths,
        store,
    };
    let (queue, _) = ImpairQueue::create(cap, WIDTH as usize, tree.shared(), free, rows.shared());
    let mut lent = Lent {
        tree,
        free,
        rows,
        source,
        sent,
    };
    let mut turns = Turns::new(queue, seed);
    for _ in 0..count {
        turns.turn(&mut lent, held);
    }
    turns.sum
}
