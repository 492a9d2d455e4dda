// A line for each case: the call, the name of the case, the answer to a call over memory that holds zeros, and the state after it: capacity, held and next seq.
use crate::lines::Lines;
use crate::states;
use queue::{ImpairQueue, Packet};
use queue_calls::{Call, Memory, Table};
use std::io;
use std::io::Write;

// Memory for two copies of `room` bytes is lent, of which the table `short` lacks an entry.
#[derive(Clone, Copy)]
pub struct Case<'a> {
    pub name: &'a str,
    pub queue: ImpairQueue,
    pub room: u32,
    pub short: Option<Table>,
}

impl Case<'_> {
    // There is room for 2,048 bytes of each copy, and no table is short.
    pub fn new(name: &str, queue: ImpairQueue) -> Case<'_> {
        Case {
            name,
            queue,
            room: states::WIDTH,
            short: None,
        }
    }

    // A slot has 2,048 bytes.
    pub fn create<W: Write>(self, lines: &mut Lines<W>, cap: usize) -> io::Result<()> {
        let width = states::WIDTH as usize;
        self.line(lines, "create", Call::Create { cap, width })
    }

    // The copy has n bytes.
    pub fn push<W: Write>(
        self,
        lines: &mut Lines<W>,
        due_ms: f64,
        arrival_ms: f64,
        n: usize,
    ) -> io::Result<()> {
        let bytes = vec![in lines.alloc; 0; n]?;
        let packet = Packet {
            due_ms,
            arrival_ms,
            route: 7,
            copy_id: 1,
            duplicated: false,
        };
        self.line(lines, "push", Call::Push(packet, &bytes))
    }

    pub fn release<W: Write>(self, lines: &mut Lines<W>, now_ms: f64) -> io::Result<()> {
        self.line(lines, "release", Call::Release(now_ms))
    }

    pub fn next_due<W: Write>(self, lines: &mut Lines<W>) -> io::Result<()> {
        self.line(lines, "next_due", Call::NextDue)
    }

    pub fn drain<W: Write>(self, lines: &mut Lines<W>) -> io::Result<()> {
        self.line(lines, "drain", Call::Drain)
    }

    fn line<W: Write>(self, lines: &mut Lines<W>, word: &str, call: Call<'_>) -> io::Result<()> {
        let mut memory = Memory::new(lines.alloc, 2, 2 * self.room as usize)?;
        let part = states::two(self.room, self.short);
        let mut queue = self.queue;
        let answer = call.make(&mut queue, &mut memory.part(part));
        write!(lines.out, "{word} {}", self.name)?;
        lines.end(answer, &memory, queue)
    }
}
