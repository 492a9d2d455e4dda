// The answers of many calls, to be counted.
use crate::answers::Answer;
use numbers::Refusal;
use std::alloc::{AllocError, Global};
use std::fmt;

// What a call was answered, and whether that was right.
#[derive(Clone, Copy)]
struct Turn {
    answer: Result<Answer, Refusal>,
    is_right: bool,
}

#[derive(Drop)]
pub struct Tally {
    turns: Vec<Turn>,
}

impl Tally {
    pub fn new(alloc: Global) -> Self {
        Tally {
            turns: Vec::new(alloc),
        }
    }

    pub fn add(
        &mut self,
        answer: Result<Answer, Refusal>,
        is_right: bool,
    ) -> Result<(), AllocError> {
        self.turns.push(Turn { answer, is_right })?;
        Ok(())
    }

    // How many calls there were.
    pub fn calls(&self) -> usize {
        self.turns.len()
    }

    // How many answers that are no refusals pass a test.
    pub fn answered<F: Fn(Answer) -> bool>(&self, passes: F) -> usize
        requires { F.IsAlwaysCallable passes }
    {
        self.count(|turn| turn.answer.is_ok_and(|answer| passes(answer)))
    }

    // How many calls were refused for a reason.
    pub fn refused(&self, refusal: Refusal) -> usize {
        self.count(|turn| turn.answer.err() == Some(refusal))
    }

    // How many answers were not right.
    pub fn wrong(&self) -> usize {
        self.count(|turn| !turn.is_right)
    }

    fn count<F: Fn(&Turn) -> bool>(&self, passes: F) -> usize
        requires { F.IsAlwaysCallable passes }
    {
        self.turns.iter().filter(|turn| passes(turn)).count()
    }
}

// How many copies entered and left, and how often none was due.
impl fmt::Display for Tally {
    fn fmt<W: fmt::Write>(&self, f: &mut fmt::Formatter<W>) -> fmt::Result {
        let entered = self.answered(|answer| matches!(answer, Answer::Entered(_)));
        let released = self.answered(|answer| matches!(answer, Answer::Released(Some(_))));
        let none_due = self.answered(|answer| matches!(answer, Answer::Released(None)));
        write!(
            f,
            "entered {entered} released {released} none due {none_due}"
        )
    }
}
