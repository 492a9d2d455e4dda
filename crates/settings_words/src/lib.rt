// Settings as words, for the programs.
#![tactic(auto)]

mod direction;
mod windows;

use direction::Direction;
use options::{Config, Mode};
use std::fmt;

// The answer to an option text that is taken.
#[derive(Clone, Copy)]
pub struct Taken<'a>(pub &'a Config);

impl<'a> fmt::Display for Taken<'a> {
    fn fmt<W: fmt::Write>(&self, f: &mut fmt::Formatter<W>) -> fmt::Result {
        let config = self.0;
        let mode = ModeName(config.mode);
        write!(f, "taken mode={mode} seed={}", config.seed)?;
        write!(f, " duration={}", config.duration_ms)?;
        write!(f, " verbose={}", u8::from(config.verbose))?;
        write!(f, " cap={}", config.queue_cap)?;
        write!(f, " {} {}", Direction(&config.c2s), Direction(&config.s2c))
    }
}

// A mode by its name.
#[derive(Clone, Copy)]
struct ModeName(Mode);

impl fmt::Display for ModeName {
    fn fmt<W: fmt::Write>(&self, f: &mut fmt::Formatter<W>) -> fmt::Result {
        f.write_str(match self.0 {
            Mode::Udp => "udp",
            Mode::Tcp => "tcp",
        })
    }
}
