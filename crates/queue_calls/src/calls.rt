// Calls on a queue.
use crate::answers::Answer;
use crate::memory::Lent;
use numbers::Refusal;
use queue::{ImpairQueue, Packet};

// A call with what it is given but for the memory.
#[derive(Clone, Copy, Debug, PartialEq)]
pub enum Call<'a> {
    Create { cap: usize, width: usize },
    // The packet and its bytes.
    Push(Packet, &'a [u8]),
    // The instant.
    Release(f64),
    NextDue,
    Drain,
    Len,
}

impl Call<'_> {
    // Makes the call on the queue over the lent memory; a creation puts a new queue in its place.
    pub fn make(self, queue: &mut ImpairQueue, lent: &mut Lent<'_>) -> Result<Answer, Refusal> {
        let tree = &mut lent.tree;
        let free = &mut *lent.free;
        let rows = &mut lent.rows;
        match self {
            Call::Create { cap, width } => {
                let (seen, rows) = (tree.shared(), rows.shared());
                let created = ImpairQueue::create(cap, width, seen, free, rows);
                kept(queue, created).map(|_| Answer::Created)
            }
            Call::Push(packet, bytes) => {
                let pushed = queue.push(tree, free, rows, packet, bytes);
                kept(queue, pushed).map(Answer::Entered)
            }
            Call::Release(now_ms) => {
                let released = queue.release(tree, free, rows.shared(), now_ms);
                kept(queue, released).map(Answer::Released)
            }
            Call::NextDue => {
                let seen = tree.shared();
                queue.next_due(seen.win, seen.dues).map(Answer::Due)
            }
            Call::Drain => {
                let drained = queue.drain();
                kept(queue, drained).map(Answer::Drained)
            }
            Call::Len => Ok(Answer::Held {
                copies: queue.len(),
                is_empty: queue.is_empty(),
            }),
        }
    }
}

// The answer of a call; the queue that it hands back is kept.
fn kept<T>(
    queue: &mut ImpairQueue,
    called: (ImpairQueue, Result<T, Refusal>),
) -> Result<T, Refusal> {
    let (left, answer) = called;
    *queue = left;
    answer
}
