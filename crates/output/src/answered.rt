// Answers that may be refusals.
ghost use Rattle.output.specs.Words.{answered_text};

use numbers::Refusal;
use std::fmt;

// What a call gives, or the word refused and the number of the reason.
#[derive(Clone, Copy, Drop)]
pub struct Answered<T>(pub Result<T, Refusal>);

impl<T: fmt::Display> fmt::Display for Answered<T> {
    ghost output = { λ answered. answered_text T.output answered.0 };

    fn fmt<W: fmt::Write>(&self, f: &mut fmt::Formatter<W>) -> fmt::Result {
        match &self.0 {
            Ok(given) => write!(f, "{given}"),
            Err(refusal) => write!(f, "refused {}", u32::from(*refusal)),
        }
    }
}
