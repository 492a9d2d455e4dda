// A copy enters and one leaves, and what left is summed up, so that the work cannot be left out.
use crate::lent::Lent;
use numbers::Refusal;
use queue::{ImpairQueue, Packet, Queued};

// The bytes of a slot, and from one copy of the source to the next.
pub(crate) const WIDTH: u32 = 2048;

// The bytes of a copy.
const LENGTH: usize = 200;

// The source has the bytes of so many copies that enter.
const SOURCES: u64 = 16;

// A due is up to this many milliseconds ahead.
const SPREAD_MS: f64 = 1000.0;

// The queue, the instant, the draw of which a copy is made, and the sum of what left.
#[derive(Drop)]
pub(crate) struct Turns {
    queue: ImpairQueue,
    now_ms: f64,
    draw: u64,
    pub sum: u64,
}

// The next state of the generator xorshift64. The driver in Rust (oracle/src/bench_queue.rs) has the same lines. Tried with `draws::Rng`: a round
// took 634 instructions in place of 606, and the ratio to the Rust is not to rise.
fn next(state: u64) -> u64 {
    let mut x = state;
    x ^= x << 13;
    x ^= x >> 7;
    x ^= x << 17;
    x
}

// From 0 up to 1: the last step of `Rng::next_f64`, which does not give the draw, of which a copy is made too. The driver in Rust has this line.
fn unit(draw: u64) -> f64 {
    numbers::float_of(draw >> 11) * (1.0 / 9007199254740992.0)
}

// The bytes of a copy that left go to `sent`. Returned is what the copy adds to the sum, with whether it waited.
fn send(store: &[u8], copy: Queued, sent: &mut [u8]) -> u64 {
    let waited = if copy.arrival_ms < copy.due_ms {
        1000
    } else {
        0
    };
    bench_sums::send(store, WIDTH, copy, sent).wrapping_add(waited)
}

// The same for an answer, and 0 where none left.
fn send_answer(store: &[u8], answer: Result<Option<Queued>, Refusal>, sent: &mut [u8]) -> u64 {
    match answer {
        Ok(Some(copy)) => send(store, copy, sent),
        _ => 0,
    }
}

impl Turns {
    // The draws follow from the seed.
    pub(crate) fn new(queue: ImpairQueue, seed: u64) -> Self {
        Turns {
            queue,
            now_ms: 0.0,
            draw: seed,
            sum: 0,
        }
    }

    // A copy enters, and one leaves where more than `held` are held then.
    pub(crate) fn turn(&mut self, lent: &mut Lent<'_, '_, '_>, held: usize) {
        self.enter(lent);
        self.leave(lent, held);
    }

    // A copy enters, made of the next draw and due within the spread.
    fn enter(&mut self, lent: &mut Lent<'_, '_, '_>) {
        self.draw = next(self.draw);
        let packet = Packet {
            due_ms: self.now_ms + unit(self.draw) * SPREAD_MS,
            arrival_ms: self.now_ms,
            route: self.draw,
            copy_id: 0,
            duplicated: false,
        };
        let bytes = queue::payload(lent.source, WIDTH, (self.draw % SOURCES) as u32, LENGTH);
        let free = &mut *lent.free;
        let (queue, _) = self
            .queue
            .push(&mut lent.tree, free, &mut lent.rows, packet, bytes);
        self.queue = queue;
    }

    // Where more than `held` are held, it is now the least due, and that copy leaves.
    fn leave(&mut self, lent: &mut Lent<'_, '_, '_>, held: usize) {
        if self.queue.len() <= held {
            return;
        }
        let seen = lent.tree.shared();
        let due = self.queue.next_due(seen.win, seen.dues);
        self.now_ms = due.ok().flatten().unwrap_or(self.now_ms);
        let rows = lent.rows.shared();
        let free = &mut *lent.free;
        let (queue, released) = self.queue.release(&mut lent.tree, free, rows, self.now_ms);
        self.queue = queue;
        let sent = &mut *lent.sent;
        self.sum = bench_sums::add(self.sum, send_answer(rows.store, released, sent));
    }
}
