// The device's answers as words.
use device::Arrived;
use engine_words::Decided;
use std::fmt;
use steps::Decision;

// What happened to a packet: the decision, of one that may enter also the copies entered and overflowed, of a reset those torn.
#[derive(Clone, Copy)]
pub struct Happened(pub Arrived);

impl fmt::Display for Happened {
    fn fmt<W: fmt::Write>(&self, f: &mut fmt::Formatter<W>) -> fmt::Result {
        let arrived = self.0;
        write!(f, "{}", Decided(arrived.decision))?;
        match arrived.decision {
            Decision::Enqueue { .. } => write!(f, " {} {}", arrived.entered, arrived.overflowed),
            Decision::KillRst => write!(f, " {}", arrived.torn),
            _ => Ok(()),
        }
    }
}

// How many copies a teardown took.
#[derive(Clone, Copy)]
pub struct Torn(pub u64);

impl fmt::Display for Torn {
    fn fmt<W: fmt::Write>(&self, f: &mut fmt::Formatter<W>) -> fmt::Result {
        write!(f, "torn {}", self.0)
    }
}
