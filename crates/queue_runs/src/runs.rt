// A queue and a list get the same calls.
use crate::draw::{Drawn, Source};
use crate::list::List;
use numbers::Refusal;
use output::Answered;
use queue::ImpairQueue;
use queue_calls::{Answer, Call, Memory, Tally, Told};
use script::payload;
use std::alloc::{AllocError, Global};

// Makes 20,000 calls over memory for 64 copies of `width` bytes.
pub fn compared(alloc: Global, cap: usize, width: u16) -> Result<Tally, AllocError> {
    let slot = width as usize;
    let mut memory = Memory::new(alloc, 64, 64 * slot)?;
    let mut bytes = vec![in alloc; 0; slot]?;
    let mut queue = ImpairQueue::smallest();
    let _ = Call::Create { cap, width: slot }.make(&mut queue, &mut memory.lent());
    let mut list = List::new(alloc, cap, width)?;
    let mut source = Source::new(cap as u64, width);
    let mut tally = Tally::new(alloc);
    for turn in 0..20000 {
        let drawn = source.call(turn);
        let answer = call_of(drawn, &mut bytes).make(&mut queue, &mut memory.lent());
        let wanted = list.make(drawn)?;
        let told = words(alloc, answer, &memory.store, queue.width)?;
        let is_same = told == words(alloc, wanted, &list.store, list.width)?;
        tally.add(answer, is_same)?;
    }
    Ok(tally)
}

// The call on a queue; the bytes of a copy are made in `bytes`.
fn call_of(drawn: Drawn, bytes: &mut [u8]) -> Call<'_> {
    match drawn {
        Drawn::Push(copy) => {
            let filled = payload::fill(payload::front(bytes, copy.length), copy.seed);
            Call::Push(copy.into(), filled)
        }
        Drawn::Release(now_ms) => Call::Release(now_ms),
        Drawn::NextDue => Call::NextDue,
        Drawn::Len => Call::Len,
        Drawn::Drain => Call::Drain,
    }
}

// An answer in words, as which answers are compared. Not by a derived `==`: the slot of a copy that left is not to count and the sum of its bytes is, and 0 and
// -0 are apart.
fn words(
    alloc: Global,
    answer: Result<Answer, Refusal>,
    store: &[u8],
    width: u32,
) -> Result<String, AllocError> {
    format!(in alloc; "{}", Answered(Told::of(answer, store, width)))
}
