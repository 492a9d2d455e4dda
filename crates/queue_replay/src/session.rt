// A queue, and the memory that its calls are lent.
use crate::request;
use queue::ImpairQueue;
use queue_calls::{Memory, Told};
use script::Line;
use std::alloc::{AllocError, Global};
use std::io;
use std::io::Write;

// How many copies there is room for, and how many bytes the store has for them: 2,048 for each.
const COPIES: usize = 256;

const STORE_BYTES: usize = 524288;

// More bytes than a copy may have, so that one that is too long is lent as too long.
const ROOM_BYTES: usize = 16384;

// `room` is where the bytes of a copy that is to enter are made.
#[derive(Drop)]
pub struct Session {
    queue: ImpairQueue,
    memory: Memory,
    room: Vec<u8>,
}

impl Session {
    // Before the first line the queue has capacity 1.
    pub fn new(alloc: Global) -> Result<Session, AllocError> {
        Ok(Session {
            queue: ImpairQueue::smallest(),
            memory: Memory::new(alloc, COPIES, STORE_BYTES)?,
            room: vec![in alloc; 0; ROOM_BYTES]?,
        })
    }

    // Makes the call that a line asks for, and says its answer; false where the line is no call.
    pub fn answer<W: Write>(&mut self, line: &Line, out: &mut W) -> io::Result<bool> {
        let Some(call) = request::call_of(line, &mut self.room) else {
            return Ok(false);
        };
        let answer = call.make(&mut self.queue, &mut self.memory.lent());
        output::say(out, Told::of(answer, &self.memory.store, self.queue.width))?;
        Ok(true)
    }
}
