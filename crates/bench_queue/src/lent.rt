// What the driver in Rust lends.
use queue::{RowsMut, TreeMut};

// The queue's memory, the bytes that enter, and the buffer to which the bytes of what left go.
// Tried with one lifetime for all, as in `queue_calls::Lent`: the proof of `bench_queue` does not close.
#[derive(Drop)]
pub(crate) struct Lent<'a, 't, 'r> {
    pub tree: TreeMut<'t>,
    pub free: &'a mut [u32],
    pub rows: RowsMut<'r>,
    pub source: &'a [u8],
    pub sent: &'a mut [u8],
}
