// The line of a case: its name and what the calls answer.
use crate::words::{Bucket, Generator, Rebinds};
use engine::ArrivalEngine;
use engine_words::{Decided, Flagged};
use output::Answered;
use std::io;
use std::io::Write;

// An engine that is called.
#[derive(Clone, Copy)]
pub struct Case<'a> {
    pub name: &'a str,
    pub engine: ArrivalEngine,
}

impl Case<'_> {
    pub fn new(name: &str, engine: ArrivalEngine) -> Case<'_> {
        Case { name, engine }
    }

    // Has a packet arrive.
    pub fn say_arrival<W: Write>(self, out: &mut W, now_ms: f64, len: usize) -> io::Result<()> {
        let (engine, decided) = self.engine.decide(now_ms, len);
        write!(out, "{}: {}", self.name, Answered(decided.map(Decided)))?;
        writeln!(out, " {}", Bucket(&engine))
    }

    // Has two packets arrive.
    pub fn say_two_arrivals<W: Write>(self, out: &mut W) -> io::Result<()> {
        let (engine, first) = self.engine.decide(0.0, 100);
        let (engine, second) = engine.decide(0.0, 100);
        write!(out, "{}: {}", self.name, Answered(first.map(Decided)))?;
        write!(out, " {}", Answered(second.map(Decided)))?;
        writeln!(out, " {}", Generator(&engine))
    }

    // Asks twice for a rebind.
    pub fn say_two_rebinds<W: Write>(self, out: &mut W) -> io::Result<()> {
        let (engine, first) = self.engine.should_rebind_now(0.0);
        let (engine, second) = engine.should_rebind_now(0.0);
        write!(out, "{}: {}", self.name, Answered(first.map(rebind)))?;
        write!(out, " {}", Answered(second.map(rebind)))?;
        writeln!(out, " {}", Rebinds(&engine))
    }

    // Makes each call that has no length.
    pub fn say_calls<W: Write>(self, out: &mut W, now_ms: f64) -> io::Result<()> {
        let (engine, answer) = self.engine.should_rebind_now(now_ms);
        write!(out, "{}: {}", self.name, Answered(answer.map(rebind)))?;
        let rst = engine.rst_now(now_ms).map(|yes| Flagged("rst ", yes));
        let hold = engine.hold_now(now_ms).map(|yes| Flagged("hold ", yes));
        write!(out, " {} {}", Answered(rst), Answered(hold))?;
        let (_, counted) = engine.stats_inc_overflow();
        writeln!(out, " {}", Answered(counted.map(|()| "overflow")))
    }
}

fn rebind(yes: bool) -> Flagged {
    Flagged("rebind ", yes)
}
