// The engine that a script calls.
use crate::calls::Call;
use engine::ArrivalEngine;
use engine_words::stats::{Dropped, Others, Received};
use engine_words::{Decided, Direction, Flagged};
use numbers::Refusal;
use options::Config;
use output::say;
use std::io;
use std::io::Write;
use steps::Decision;

// The settings of the last option text, the default ones where it was refused, and the last engine.
#[derive(Clone, Copy)]
pub struct Session {
    config: Config,
    engine: ArrivalEngine,
}

impl Session {
    // Before the first line: an engine of the default settings.
    pub fn new() -> Self {
        let config = Config::default();
        let (engine, _) = ArrivalEngine::new(config.c2s, 0);
        Session { config, engine }
    }

    // Does what a line asks for, and says the answer.
    pub fn answer<W: Write>(&mut self, out: &mut W, call: Call<'_>) -> io::Result<()> {
        match call {
            Call::Options(text) => say(out, self.take(text).map(|()| "taken")),
            Call::Create { direction, seed } => {
                say(out, self.create(direction, seed).map(|()| "created"))
            }
            Call::Decide { now_ms, len } => say(out, self.decide(now_ms, len).map(Decided)),
            Call::Rebind { now_ms } => say_flag(out, "rebind ", self.rebind(now_ms)),
            Call::Rst { now_ms } => say_flag(out, "rst ", self.engine.rst_now(now_ms)),
            Call::Hold { now_ms } => say_flag(out, "hold ", self.engine.hold_now(now_ms)),
            Call::Overflow => say(out, self.overflow().map(|()| "overflow")),
            Call::Stats => self.say_stats(out),
        }
    }

    fn take(&mut self, text: &[u8]) -> Result<(), Refusal> {
        let (config, answer) = options::parse_config(text);
        self.config = config;
        answer
    }

    fn create(&mut self, direction: Direction, seed: u64) -> Result<(), Refusal> {
        let settings = direction.settings(&self.config);
        self.keep(ArrivalEngine::new(settings, seed))
    }

    fn decide(&mut self, now_ms: f64, len: usize) -> Result<Decision, Refusal> {
        self.keep(self.engine.decide(now_ms, len))
    }

    fn rebind(&mut self, now_ms: f64) -> Result<bool, Refusal> {
        self.keep(self.engine.should_rebind_now(now_ms))
    }

    fn overflow(&mut self) -> Result<(), Refusal> {
        self.keep(self.engine.stats_inc_overflow())
    }

    // Keeps the engine that a call gave; the answer is the call's. By value: the form that document 01 gives the calls.
    fn keep<T>(&mut self, called: (ArrivalEngine, Result<T, Refusal>)) -> Result<T, Refusal> {
        let (engine, answer) = called;
        self.engine = engine;
        answer
    }

    fn say_stats<W: Write>(&self, out: &mut W) -> io::Result<()> {
        let stats = &self.engine.stats;
        write!(out, "stats{}{}", Received(stats), Dropped(stats))?;
        write!(out, "{}", Others(stats))
    }
}

// The word and 1 or 0.
fn say_flag<W: Write>(
    out: &mut W,
    word: &'static str,
    answer: Result<bool, Refusal>,
) -> io::Result<()> {
    say(out, answer.map(|yes| Flagged(word, yes)))
}
