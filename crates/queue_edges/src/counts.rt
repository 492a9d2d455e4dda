// How often each answer came.
use numbers::Refusal;
use queue_calls::{Answer, Tally};
use std::fmt;

// The refusals that a call on a queue can have.
const REFUSALS: [Refusal; 7] = [
    Refusal::Instant,
    Refusal::Length,
    Refusal::Memory,
    Refusal::Counter,
    Refusal::Keeping,
    Refusal::Due,
    Refusal::Full,
];

// A tally in words; a call that did not keep what it had to is wrong.
#[derive(Clone, Copy)]
pub struct TallyWords<'a>(pub &'a Tally);

impl fmt::Display for TallyWords<'_> {
    fn fmt<W: fmt::Write>(&self, f: &mut fmt::Formatter<W>) -> fmt::Result {
        let tally = self.0;
        let due = tally.answered(|answer| matches!(answer, Answer::Due(Some(_))));
        let empty = tally.answered(|answer| matches!(answer, Answer::Due(None)));
        let drained = tally.answered(|answer| matches!(answer, Answer::Drained(_)));
        write!(f, "{tally} due {due} empty {empty} drained {drained}")?;
        for refusal in REFUSALS {
            let refused = tally.refused(refusal);
            write!(f, " refused {}: {refused}", u32::from(refusal))?;
        }
        write!(f, " wrong {}", tally.wrong())
    }
}
