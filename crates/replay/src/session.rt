// The device that a script calls.
use crate::calls::{Call, Packet};
use crate::report::Reported;
use device::{Arrived, DEFAULT_WIDTH, Device, Report};
use device_words::{Happened, Torn, lent};
use engine_words::{Direction, Flagged};
use numbers::Refusal;
use options::Config;
use output::say;
use queue::Queued;
use queue_calls::{Answer, Memory, Told};
use script::payload;
use settings_words::Taken;
use std::alloc::{AllocError, Global};
use std::io;
use std::io::Write;

// How many copies there is room for, and how many bytes the store has for them: 2,048 for each.
const COPIES: usize = 1024;

const STORE_BYTES: usize = 2097152;

// More bytes than a packet may have, so that one that is too long is lent as too long.
const ROOM_BYTES: usize = 16384;

// The settings of the last option text, the default ones where it was refused, the last device and its memory; the bytes of a packet that arrives are made in
// `room`.
#[derive(Drop)]
pub struct Session {
    config: Config,
    device: Device,
    memory: Memory,
    room: Vec<u8>,
}

impl Session {
    // Before the first line: the default settings, and the device of a creation that is refused since its capacity is 0.
    pub fn new(alloc: Global) -> Result<Self, AllocError> {
        let config = Config::default();
        let mut memory = Memory::new(alloc, COPIES, STORE_BYTES)?;
        let room = vec![in alloc; 0; ROOM_BYTES]?;
        let width = DEFAULT_WIDTH as usize;
        let (device, _) = lent::create(&mut memory.lent(), config.c2s, 0, 0, 0, width);
        Ok(Session {
            config,
            device,
            memory,
            room,
        })
    }

    // Does what a line asks for, and says the answer.
    pub fn answer<W: Write>(&mut self, out: &mut W, call: Call<'_>) -> io::Result<()> {
        match call {
            Call::Options(text) => self.say_options(out, text),
            Call::Create {
                direction,
                salt,
                cap,
                width,
            } => {
                let created = self.create(direction, salt, cap, width);
                say(out, created.map(|()| "created"))
            }
            Call::Arrive { now_ms, packet } => say(out, self.arrive(now_ms, packet).map(Happened)),
            Call::Release { now_ms } => self.say_release(out, now_ms),
            Call::Rebind { now_ms } => say(
                out,
                self.rebind(now_ms).map(|yes| Flagged("rebind ", yes)),
            ),
            Call::Teardown => say(out, self.teardown().map(Torn)),
            Call::Report => say(out, self.report().map(Reported)),
        }
    }

    fn say_options<W: Write>(&mut self, out: &mut W, text: &[u8]) -> io::Result<()> {
        let (config, answer) = options::parse_config(text);
        self.config = config;
        say(out, answer.map(|()| Taken(&config)))
    }

    // Of a copy that left also the sum of its bytes is said, which lie in the store.
    fn say_release<W: Write>(&mut self, out: &mut W, now_ms: f64) -> io::Result<()> {
        let released = self.release(now_ms).map(Answer::Released);
        let width = self.device.queue.width;
        say(out, Told::of(released, &self.memory.store, width))
    }

    // A new device of the settings that the last option text has for the direction.
    fn create(
        &mut self,
        direction: Direction,
        salt: u64,
        cap: usize,
        width: usize,
    ) -> Result<(), Refusal> {
        let settings = direction.settings(&self.config);
        let seed = self.config.seed;
        let lent = &mut self.memory.lent();
        let created = lent::create(lent, settings, seed, salt, cap, width);
        self.keep(created)
    }

    fn arrive(&mut self, now_ms: f64, packet: Packet) -> Result<Arrived, Refusal> {
        let bytes = payload::fill(payload::front(&mut self.room, packet.len), packet.seed);
        let device = self.device;
        let lent = &mut self.memory.lent();
        let arrived = lent::arrive(device, lent, now_ms, bytes, packet.route);
        self.keep(arrived)
    }

    fn release(&mut self, now_ms: f64) -> Result<Option<Queued>, Refusal> {
        let released = lent::release(self.device, &mut self.memory.lent(), now_ms);
        self.keep(released)
    }

    fn rebind(&mut self, now_ms: f64) -> Result<bool, Refusal> {
        self.keep(self.device.rebind(now_ms))
    }

    fn teardown(&mut self) -> Result<u64, Refusal> {
        self.keep(self.device.teardown())
    }

    fn report(&self) -> Result<Report, Refusal> {
        self.device.report().map_err(|refused| refused.refusal)
    }

    // Keeps the device that a call gave; the answer is the call's. By value: the form that document 01 gives the calls.
    fn keep<T>(&mut self, called: (Device, Result<T, Refusal>)) -> Result<T, Refusal> {
        let (device, answer) = called;
        self.device = device;
        answer
    }
}
