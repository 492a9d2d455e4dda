// The last two seqs go to copies that are due at no instant: then every call but that of the length is refused, until the next seq is set back.
use crate::lines::Lines;
use crate::states;
use crate::states::TOO_MANY;
use queue::{ImpairQueue, Packet};
use queue_calls::{Call, Memory};
use std::io;
use std::io::Write;

// The last instant.
const LAST: f64 = 9007199254740992.0;

// Due at no instant.
const NEVER: Packet = Packet {
    due_ms: f64::INFINITY,
    arrival_ms: 0.0,
    route: 7,
    copy_id: 1,
    duplicated: false,
};

pub fn run<W: Write>(lines: &mut Lines<W>) -> io::Result<()> {
    let mut memory = Memory::new(lines.alloc, 2, 4096)?;
    let push = Call::Push(NEVER, b"abc");
    let release = Call::Release(LAST);
    let calls = [
        push,
        Call::NextDue,
        release,
        push,
        push,
        release,
        Call::NextDue,
        Call::Drain,
        Call::Len,
    ];
    let mut queue = states::empty(TOO_MANY - 2);
    make(lines, &mut memory, &mut queue, &calls)?;
    queue.next_seq = 5;
    let calls = [Call::NextDue, release, Call::Drain, Call::NextDue];
    make(lines, &mut memory, &mut queue, &calls)
}

// Makes one call after the other over the same memory.
fn make<W: Write>(
    lines: &mut Lines<W>,
    memory: &mut Memory,
    queue: &mut ImpairQueue,
    calls: &[Call<'_>],
) -> io::Result<()> {
    for call in calls {
        let answer = call.make(queue, &mut memory.lent());
        write!(lines.out, "last seqs")?;
        lines.end(answer, memory, *queue)?;
    }
    Ok(())
}
