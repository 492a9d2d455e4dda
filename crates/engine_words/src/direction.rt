// The direction that a script asks for.
use options::{Config, DirectionConfig};

#[derive(Clone, Copy, Debug, PartialEq, Eq)]
pub enum Direction {
    ClientToServer,
    ServerToClient,
}

impl Direction {
    // The direction that a word names. Not a `TryFrom`: the one thing to say of another word is that it is none.
    pub fn of(word: &[u8]) -> Option<Self> {
        match word {
            b"c2s" => Some(Direction::ClientToServer),
            b"s2c" => Some(Direction::ServerToClient),
            _ => None,
        }
    }

    // The settings that a text has for it.
    pub fn settings(self, config: &Config) -> DirectionConfig {
        match self {
            Direction::ClientToServer => config.c2s,
            Direction::ServerToClient => config.s2c,
        }
    }
}
