// A queue as a plain list: what it holds stands in no order, and the least is found by a scan.
use crate::draw::{Drawn, Seeded};
use numbers::Refusal;
use queue::{Entered, Packet, Queued};
use queue_calls::Answer;
use script::payload;
use std::alloc::{AllocError, Global};
use std::cmp::OrderedFloat;

// A copy that is held.
#[derive(Clone, Copy)]
struct Held {
    copy: Seeded,
    seq: u64,
}

// The store has the bytes of the copy that left last, in one slot of that width.
#[derive(Drop)]
pub struct List {
    cap: usize,
    next_seq: u64,
    held: Vec<Held>,
    pub width: u32,
    pub store: Vec<u8>,
}

impl List {
    pub fn new(alloc: Global, cap: usize, width: u16) -> Result<Self, AllocError> {
        Ok(List {
            cap,
            next_seq: 0,
            held: Vec::new(alloc),
            width: width as u32,
            store: vec![in alloc; 0; width as usize]?,
        })
    }

    // Makes the call.
    pub fn make(&mut self, drawn: Drawn) -> Result<Result<Answer, Refusal>, AllocError> {
        Ok(match drawn {
            Drawn::Push(copy) => self.push(copy)?.map(Answer::Entered),
            Drawn::Release(now_ms) => Ok(Answer::Released(self.release(now_ms))),
            Drawn::NextDue => Ok(Answer::Due(self.next_due())),
            Drawn::Len => Ok(Answer::Held {
                copies: self.held.len(),
                is_empty: self.held.is_empty(),
            }),
            Drawn::Drain => Ok(Answer::Drained(self.drain())),
        })
    }

    fn push(&mut self, copy: Seeded) -> Result<Result<Entered, Refusal>, AllocError> {
        if self.held.len() == self.cap {
            return Ok(Err(Refusal::Full));
        }
        let seq = self.next_seq;
        self.held.push(Held { copy, seq })?;
        self.next_seq = seq.wrapping_add(1);
        Ok(Ok(Entered { seq, copies: 1 }))
    }

    fn release(&mut self, now_ms: f64) -> Option<Queued> {
        let least = self.least()?;
        if now_ms < least.copy.due_ms {
            return None;
        }
        self.held.retain(|held| held.seq != least.seq);
        let bytes = payload::front(&mut self.store, least.copy.length);
        payload::fill(bytes, least.copy.seed);
        Some(Queued::from(least))
    }

    fn next_due(&self) -> Option<f64> {
        Some(self.least()?.copy.due_ms)
    }

    fn drain(&mut self) -> usize {
        let copies = self.held.len();
        self.held.clear();
        copies
    }

    // The copy with the least (due, seq).
    fn least(&self) -> Option<Held> {
        self.held
            .iter()
            .copied()
            .min_by_key(|held| (OrderedFloat(held.copy.due_ms), held.seq))
    }
}

// A copy as it leaves; its bytes lie in slot 0.
impl From<Held> for Queued {
    fn from(held: Held) -> Queued {
        let packet = Packet::from(held.copy);
        Queued {
            due_ms: packet.due_ms,
            seq: held.seq,
            arrival_ms: packet.arrival_ms,
            route: packet.route,
            copy_id: packet.copy_id,
            length: held.copy.length as usize,
            slot: 0,
        }
    }
}
