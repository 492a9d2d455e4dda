// A new queue, and one from which all have left. Neither touches a table.
ghost use Rattle.std.specs.Prelude.{◌≡◌};
ghost use Rattle.queue.specs.Lent.{seen_tables};
ghost use Rattle.queue.specs.Calls.{fresh, smallest_queue, create_of, drain_of};

use crate::queue::ImpairQueue;
use crate::rows::Rows;
use crate::sizes::Sizes;
use numbers::{MAX_CAPACITY, Refusal};
use tournament::Tree;

// How many bytes a slot has where a creation was refused.
pub const DEFAULT_WIDTH: u32 = 2048;

// A queue that holds nothing and has used no slot.
fn empty(cap: u32, width: u32, next_seq: u64) -> ImpairQueue
    ensures { result ≡ fresh cap width next_seq }
{
    ImpairQueue {
        cap,
        width,
        held: 0,
        next_seq,
        leaves: 0,
        opened: 0,
    }
}

impl ImpairQueue {
    // An empty queue of capacity 1 and slots of 2,048 bytes: what a refused creation gives.
    pub fn smallest() -> ImpairQueue
        ensures { result ≡ smallest_queue }
    {
        empty(1, DEFAULT_WIDTH, 0)
    }

    // A queue of slots of that width over the lent tables and store, or a refusal by 24, 30 or 23.
    #[tactic(auto, unfolding(crate::specs::Calls::create_of, crate::specs::Refusals::memory_of))]
    pub fn create(
        cap: usize,
        width: usize,
        tree: Tree<'_>,
        free: &[u32],
        rows: Rows<'_>,
    ) -> (ImpairQueue, Result<(), Refusal>)
        ensures { result ≡ create_of cap width (seen_tables tree.entry free.now rows.entry) }
    {
        let in_range = (1 <= cap) & (cap <= MAX_CAPACITY as usize);
        if !in_range {
            return (ImpairQueue::smallest(), Err(Refusal::Capacity));
        }
        if !numbers::is_width(width) {
            return (ImpairQueue::smallest(), Err(Refusal::Width));
        }
        let (cap, width) = (cap as u32, width as u32);
        if !Sizes::of(tree, free, rows).have_room(cap, width) {
            return (ImpairQueue::smallest(), Err(Refusal::Memory));
        }
        (empty(cap, width, 0), Ok(()))
    }

    // All held copies leave, and their number is told; or a refusal by 25 or 26.
    #[tactic(auto, unfolding(crate::specs::Calls::drain_of))]
    pub fn drain(self) -> (ImpairQueue, Result<usize, Refusal>)
        ensures { result ≡ drain_of self }
    {
        match self.judge_state() {
            Ok(()) => (
                empty(self.cap, self.width, self.next_seq),
                Ok(self.held as usize),
            ),
            Err(refusal) => (self, Err(refusal)),
        }
    }
}
