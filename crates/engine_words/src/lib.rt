// The engine's answers as words, and the direction that a word names, for the programs.
#![tactic(auto)]

mod direction;
pub mod stats;

pub use direction::Direction;
use output::Bits;
use std::fmt;
use steps::Decision;

// What becomes of an arriving packet.
#[derive(Clone, Copy)]
pub struct Decided(pub Decision);

impl fmt::Display for Decided {
    fn fmt<W: fmt::Write>(&self, f: &mut fmt::Formatter<W>) -> fmt::Result {
        match self.0 {
            Decision::DropRandom => f.write_str("drop random"),
            Decision::DropGe => f.write_str("drop ge"),
            Decision::DropMtu => f.write_str("drop mtu"),
            Decision::DropBlackout => f.write_str("drop blackout"),
            Decision::DropKillHold => f.write_str("drop kill-hold"),
            Decision::Enqueue { due_ms, extra_dup } => {
                write!(f, "enqueue {} {}", Bits(due_ms), u8::from(extra_dup))
            }
            Decision::KillRst => f.write_str("reset"),
        }
    }
}

// A word, and 1 or 0 for yes or no.
#[derive(Clone, Copy)]
pub struct Flagged(pub &'static str, pub bool);

impl fmt::Display for Flagged {
    fn fmt<W: fmt::Write>(&self, f: &mut fmt::Formatter<W>) -> fmt::Result {
        write!(f, "{}{}", self.0, u8::from(self.1))
    }
}
