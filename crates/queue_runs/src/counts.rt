// How often each answer came.
use numbers::Refusal;
use queue_calls::{Answer, Tally};
use std::fmt;

// A tally in words; an answer that is not that of the list is apart.
#[derive(Clone, Copy)]
pub struct TallyWords<'a>(pub &'a Tally);

impl fmt::Display for TallyWords<'_> {
    fn fmt<W: fmt::Write>(&self, f: &mut fmt::Formatter<W>) -> fmt::Result {
        let tally = self.0;
        let full = tally.refused(Refusal::Full);
        let drained = tally.answered(|answer| matches!(answer, Answer::Drained(_)));
        write!(f, "calls {} {tally} full {full} ", tally.calls())?;
        write!(f, "drained {drained} apart {}", tally.wrong())
    }
}
