// What is printed.
use numbers::Refusal;
use output::Answered;
use queue::ImpairQueue;
use queue_calls::{Answer, Memory, Told};
use std::alloc::Global;
use std::io::Write;
use std::{fmt, io};

// Where lines are written, and what memory is allocated from.
#[derive(Drop)]
pub struct Lines<W> {
    pub alloc: Global,
    pub out: W,
}

impl<W: Write> Lines<W> {
    // The rest of a line: the answer of a call, and the state after it.
    pub fn end(
        &mut self,
        answer: Result<Answer, Refusal>,
        memory: &Memory,
        left: ImpairQueue,
    ) -> io::Result<()> {
        self.tell(answer, memory, left)?;
        writeln!(self.out)
    }

    // The answer and the state that is left, without the line's end.
    pub fn tell(
        &mut self,
        answer: Result<Answer, Refusal>,
        memory: &Memory,
        left: ImpairQueue,
    ) -> io::Result<()> {
        let answer = Told::of(answer, &memory.store, left.width);
        write!(self.out, ": {}; {}", Answered(answer), State(left))
    }
}

// The capacity, how many copies are held and the next seq.
#[derive(Clone, Copy)]
pub struct State(pub ImpairQueue);

impl fmt::Display for State {
    fn fmt<W: fmt::Write>(&self, f: &mut fmt::Formatter<W>) -> fmt::Result {
        let queue = self.0;
        write!(f, "queue {} {} {}", queue.cap, queue.held, queue.next_seq)
    }
}
