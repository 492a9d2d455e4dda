// The queue's answers as words.
use crate::answers::Answer;
use numbers::Refusal;
use output::Bits;
use queue::Queued;
use script::payload;
use std::fmt;

// An answer, and the store in which the bytes of a copy that left lie, with the width of its slots.
#[derive(Clone, Copy)]
pub struct Told<'a> {
    pub answer: Answer,
    pub store: &'a [u8],
    pub width: u32,
}

impl Told<'_> {
    // What a call gave, with the store and the slot width where it was not refused.
    pub fn of(
        answer: Result<Answer, Refusal>,
        store: &[u8],
        width: u32,
    ) -> Result<Told<'_>, Refusal> {
        answer.map(|answer| Told {
            answer,
            store,
            width,
        })
    }
}

impl fmt::Display for Told<'_> {
    fn fmt<W: fmt::Write>(&self, f: &mut fmt::Formatter<W>) -> fmt::Result {
        match self.answer {
            Answer::Created => f.write_str("created"),
            Answer::Entered(entered) => write!(f, "entered {}", entered.seq),
            Answer::Released(Some(copy)) => {
                let (store, width) = (self.store, self.width);
                write!(f, "released {}", Left { copy, store, width })
            }
            Answer::Released(None) => f.write_str("none"),
            Answer::Due(Some(due_ms)) => write!(f, "due {}", Bits(due_ms)),
            Answer::Due(None) => f.write_str("empty"),
            Answer::Drained(copies) => write!(f, "drained {copies}"),
            Answer::Held { copies, is_empty } => {
                write!(f, "len {copies} {}", u8::from(is_empty))
            }
        }
    }
}

// A copy that left, with the sum of its bytes.
#[derive(Clone, Copy)]
struct Left<'a> {
    copy: Queued,
    store: &'a [u8],
    width: u32,
}

impl fmt::Display for Left<'_> {
    fn fmt<W: fmt::Write>(&self, f: &mut fmt::Formatter<W>) -> fmt::Result {
        let copy = self.copy;
        let bytes = queue::payload(self.store, self.width, copy.slot, copy.length);
        write!(f, "{} {} ", Bits(copy.due_ms), copy.seq)?;
        write!(f, "{} {} ", Bits(copy.arrival_ms), copy.route)?;
        write!(f, "{} {} ", copy.copy_id, copy.length)?;
        write!(f, "{:016x}", payload::sum(bytes))
    }
}
