// A host of one device, which prints each case on a line of its own.
use crate::calls;
use crate::calls::WIDTH;
use device::Device;
use device_words::lent;
use options::DirectionConfig;
use queue_calls::{Memory, Table};
use std::alloc::Global;
use std::fmt::Display;
use std::io;
use std::io::Write;

// The store has `room` bytes for each copy. `short` is the table that the calls are lent without its last entry; `kept` says whether each call so far that was
// refused, but not by 26, has kept the device as it was.
#[derive(Drop)]
pub struct Host<W: Write + Drop> {
    pub alloc: Global,
    pub out: W,
    pub memory: Memory,
    pub room: u16,
    pub short: Option<Table>,
    pub device: Device,
    pub kept: bool,
}

impl<W: Write + Drop> Host<W> {
    // Before the first creation: the device of a refused one.
    pub fn new(alloc: Global, out: W) -> io::Result<Self> {
        let mut memory = calls::memory(alloc, WIDTH)?;
        let config = DirectionConfig::default();
        let width = WIDTH as usize;
        let (device, _) = lent::create(&mut memory.lent(), config, 0, 0, 0, width);
        Ok(Host {
            alloc,
            out,
            memory,
            room: WIDTH,
            short: None,
            device,
            kept: true,
        })
    }

    // A line: the name of a case, and what its calls answer.
    pub fn case<F: FnOnce(&mut Self) -> io::Result<()>>(
        &mut self,
        name: &str,
        calls: F,
    ) -> io::Result<()>
        requires { F.IsAlwaysCallable calls }
    {
        write!(self.out, "{name}")?;
        calls(self)?;
        writeln!(self.out)
    }

    // An answer behind those before it.
    pub fn tell<T: Display + Drop>(&mut self, answer: T) -> io::Result<()> {
        write!(self.out, "; {answer}")
    }
}
