// States of a queue of capacity 2, and the part of memory that it is lent.
use queue::ImpairQueue;
use queue_calls::{Part, Table};

// The least number that no next seq may have: the tests' own figure, written apart from that of `numbers` on purpose.
pub const TOO_MANY: u64 = 0x1000_0000_0000_0000;

// The slot width of all queues but those that are about widths.
pub const WIDTH: u32 = 2048;

// No slot was used.
pub fn empty(next_seq: u64) -> ImpairQueue {
    with_held(0, next_seq)
}

// Both slots are in use.
pub fn full(next_seq: u64) -> ImpairQueue {
    with_held(2, next_seq)
}

// More copies are said to be held than slots were used.
pub fn altered(next_seq: u64) -> ImpairQueue {
    ImpairQueue {
        opened: 1,
        ..full(next_seq)
    }
}

// Both copies have left.
pub fn left(next_seq: u64) -> ImpairQueue {
    ImpairQueue {
        held: 0,
        ..full(next_seq)
    }
}

// So many slots are in use, and no other was.
pub fn with_held(held: u32, next_seq: u64) -> ImpairQueue {
    ImpairQueue {
        cap: 2,
        width: WIDTH,
        held,
        next_seq,
        leaves: held,
        opened: held,
    }
}

// An empty queue of another slot width.
pub fn of_width(width: u32) -> ImpairQueue {
    ImpairQueue { width, ..empty(5) }
}

// Room for two copies of so many bytes; the table `short` has one entry less.
pub fn two(width: u32, short: Option<Table>) -> Part {
    Part {
        start: 0,
        entries: 2,
        width,
        short,
    }
}
