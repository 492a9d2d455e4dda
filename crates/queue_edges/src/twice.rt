// Pushes of a packet that is duplicated: a line for each case has the answer (the first copy's seq and how many copies entered), the state after it (capacity,
// held and next seq), and of slots 0 and 1 the copy ids, which were 7, and the seqs, which were 0.
use crate::lines::{Lines, State};
use crate::states;
use crate::states::TOO_MANY;
use output::{Answered, Each};
use queue::{Entered, ImpairQueue, Packet};
use queue_calls::{Lent, Memory};
use std::io::Write;
use std::{fmt, io};

const PACKET: Packet = Packet {
    due_ms: 8.0,
    arrival_ms: 7.0,
    route: 9,
    copy_id: 0,
    duplicated: true,
};

pub fn pushes<W: Write>(lines: &mut Lines<W>) -> io::Result<()> {
    for (name, queue, free) in [
        ("empty", states::empty(5), [0, 1]),
        ("one free", states::with_held(1, 5), [0, 1]),
        ("full", states::full(5), [0, 1]),
        ("next seq 2^60 - 1", states::empty(TOO_MANY - 1), [0, 1]),
        ("next seq 2^60", states::empty(TOO_MANY), [0, 1]),
        ("first slot out of range", states::left(5), [0, 9]),
        ("second slot out of range", states::left(5), [9, 0]),
    ] {
        push(lines, name, queue, &free)?;
    }
    Ok(())
}

// The slots that copies have left are those of `free`, the last one last: it is used first.
fn push<W: Write>(
    lines: &mut Lines<W>,
    name: &str,
    queue: ImpairQueue,
    free: &[u32],
) -> io::Result<()> {
    let mut memory = Memory::new(lines.alloc, 2, 4096)?;
    memory.copy_ids.fill(7);
    let Lent {
        mut tree,
        mut rows,
        ..
    } = memory.lent();
    let (left, pushed) = queue.push(&mut tree, free, &mut rows, PACKET, b"abc");
    let answer = Answered(pushed.map(Copies));
    write!(lines.out, "push both {name}: {answer}; {}", State(left))?;
    let (ids, seqs) = (Each(&memory.copy_ids), Each(&memory.seqs));
    writeln!(lines.out, "; ids{ids}; seqs{seqs}")
}

// How the copies of a packet entered.
#[derive(Clone, Copy)]
struct Copies(Entered);

impl fmt::Display for Copies {
    fn fmt<W: fmt::Write>(&self, f: &mut fmt::Formatter<W>) -> fmt::Result {
        write!(f, "entered {} {}", self.0.seq, self.0.copies)
    }
}
