// The mode of the line, and the options that it does not have.
ghost use Rattle.std.specs.Prelude.{◌≡◌};
ghost use Rattle.options.specs.Modes.{parse_mode_of, other_mode_of};

use crate::config::DirectionConfig;
use numbers::Refusal;

// Whether datagrams or streams are carried.
#[derive(Clone, Copy, Debug, PartialEq, Eq)]
pub enum Mode {
    Udp,
    Tcp,
}

impl Mode {
    // No `TryFrom`: a `parse`, like those that the source has for windows and kill styles.
    pub fn parse(v: &[u8]) -> Result<Mode, Refusal>
        ensures { result ≡ parse_mode_of v.now }
    {
        match v {
            b"udp" => Ok(Mode::Udp),
            b"tcp" => Ok(Mode::Tcp),
            _ => Err(Refusal::Mode),
        }
    }
}

// Refuses the options of a direction that the mode does not have.
#[tactic(auto, using(numbers::specs::Laws::Literals::zero_is))]
pub fn other_mode(mode: Mode, config: &DirectionConfig) -> Result<(), Refusal>
    ensures { result ≡ other_mode_of mode config.now }
{
    match mode {
        Mode::Udp if config.tcp_kill_count > 0 => Err(Refusal::KillUnderUdp),
        Mode::Tcp if config.nat_change_every_ms > 0 => Err(Refusal::NatChangeUnderTcp),
        Mode::Tcp if config.reorder_p > 0.0 => Err(Refusal::ReorderUnderTcp),
        Mode::Tcp if config.duplicate_p > 0.0 => Err(Refusal::DuplicateUnderTcp),
        _ => Ok(()),
    }
}
