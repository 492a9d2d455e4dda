// The calls over the memory of a host. Each prints its answer. By value: the form that document 01 gives the calls.
use crate::host::Host;
use crate::state::State;
use crate::words::{DeviceWords, ReportWords};
use device::Device;
use device_words::{Happened, Torn, lent};
use engine_words::Flagged;
use numbers::Refusal;
use options::DirectionConfig;
use output::Answered;
use queue_calls::{Answer, Lent, Memory, Part, Table, Told};
use std::alloc::{AllocError, Global};
use std::io;
use std::io::Write;

// How many copies the memory has room for.
const ENTRIES: u32 = 2;

// The slot width of all devices but those that are about widths: the tests' own figure, written apart from that of `queue` on purpose.
pub const WIDTH: u16 = 2048;

impl<W: Write + Drop> Host<W> {
    // A new device of a capacity, with the seed and the salt 0, over memory of zeros, of which a table may lack its last entry.
    pub fn create(
        &mut self,
        config: DirectionConfig,
        cap: usize,
        short: Option<Table>,
    ) -> io::Result<()> {
        self.create_of_width(config, cap, WIDTH, short)
    }

    // The same with slots of another width, for which there is memory.
    pub fn create_of_width(
        &mut self,
        config: DirectionConfig,
        cap: usize,
        width: u16,
        short: Option<Table>,
    ) -> io::Result<()> {
        self.memory = memory(self.alloc, width)?;
        self.room = width;
        self.short = short;
        let lent = &mut self.lent();
        let (device, answer) = lent::create(lent, config, 0, 0, cap, width as usize);
        self.device = device;
        self.kept = true;
        self.tell(Answered(answer.map(|_| "created")))
    }

    // The same with a capacity of two copies and all of the memory.
    pub fn open(&mut self, config: DirectionConfig) -> io::Result<()> {
        self.create(config, ENTRIES as usize, None)
    }

    // The packet's route is 7.
    pub fn arrive(&mut self, now_ms: f64, bytes: &[u8]) -> io::Result<()> {
        let before = self.device;
        let (after, answer) = lent::arrive(before, &mut self.lent(), now_ms, bytes, 7);
        self.leave(after, answer.err());
        self.tell(Answered(answer.map(Happened)))
    }

    pub fn release(&mut self, now_ms: f64) -> io::Result<()> {
        let before = self.device;
        let (after, answer) = lent::release(before, &mut self.lent(), now_ms);
        self.leave(after, answer.err());
        let released = answer.map(Answer::Released);
        let words = Told::of(released, &self.memory.store, self.device.queue.width);
        write!(self.out, "; {}", Answered(words))
    }

    pub fn rebind(&mut self, now_ms: f64) -> io::Result<()> {
        let (after, answer) = self.device.rebind(now_ms);
        self.leave(after, answer.err());
        self.tell(Answered(answer.map(|yes| Flagged("rebind ", yes))))
    }

    pub fn teardown(&mut self) -> io::Result<()> {
        let (after, answer) = self.device.teardown();
        self.leave(after, answer.err());
        self.tell(Answered(answer.map(Torn)))
    }

    pub fn report(&mut self) -> io::Result<()> {
        let answer = self.device.report().map_err(|refused| refused.refusal);
        self.tell(Answered(answer.map(ReportWords)))
    }

    pub fn tell_device(&mut self) -> io::Result<()> {
        write!(self.out, "; {}", DeviceWords(&self.device))
    }

    // The slot width.
    pub fn tell_width(&mut self) -> io::Result<()> {
        write!(self.out, "; width {}", self.device.queue.width)
    }

    // Whether each call since the creation that was refused, but not by 26, has kept the device.
    pub fn tell_kept(&mut self) -> io::Result<()> {
        self.tell(Flagged("kept ", self.kept))
    }

    // What of the memory a call is lent.
    fn lent(&mut self) -> Lent<'_> {
        let part = Part {
            start: 0,
            entries: ENTRIES,
            width: self.room as u32,
            short: self.short,
        };
        self.memory.part(part)
    }

    // Takes over what a call has left; after 26 nothing is asked of the device.
    fn leave(&mut self, after: Device, refusal: Option<Refusal>) {
        if !matches!(refusal, None | Some(Refusal::Keeping)) {
            self.kept &= State::from(&after) == State::from(&self.device);
        }
        self.device = after;
    }
}

// Memory of zeros, for two copies of so many bytes.
pub fn memory(alloc: Global, room: u16) -> Result<Memory, AllocError> {
    Memory::new(alloc, ENTRIES as usize, ENTRIES as usize * room as usize)
}
