// A setting as an argument.
use crate::decimal::FifteenDigits;
use script::patterns;
use std::io::Write;
use std::{fmt, io};

// What a setting is for: both directions until a bracket opens. Not an `Option` of `engine_words::Direction`: `Display` would need a type around it all the
// same, and this program would take in the engine.
#[derive(Clone, Copy, Debug, PartialEq, Eq)]
pub enum Direction {
    Both,
    ClientToServer,
    ServerToClient,
}

impl Direction {
    // The direction behind one opening bracket more.
    pub fn opened(self) -> Self {
        match self {
            Direction::Both => Direction::ClientToServer,
            Direction::ClientToServer | Direction::ServerToClient => Direction::ServerToClient,
        }
    }
}

// What the keys of its options begin with.
impl fmt::Display for Direction {
    fn fmt<W: fmt::Write>(&self, f: &mut fmt::Formatter<W>) -> fmt::Result {
        f.write_str(match self {
            Direction::Both => "",
            Direction::ClientToServer => "c2s-",
            Direction::ServerToClient => "s2c-",
        })
    }
}

// Shows a setting as an argument, but not one that is unset for a direction.
pub fn show<W: Write>(out: &mut W, direction: Direction, word: &[u8]) -> io::Result<()> {
    let Some((name, value)) = values::split_once(word, b'=') else {
        return show_window(out, direction, word);
    };
    if direction != Direction::Both && is_unset(value) {
        return Ok(());
    }
    let key = key_of(name).unwrap_or_default();
    write!(out, "  --{direction}{key}=")?;
    if has_floats(name) {
        show_decimals(out, value)?;
    } else {
        out.write_all(value)?;
    }
    writeln!(out)
}

fn is_unset(value: &[u8]) -> bool {
    matches!(value, b"none" | b"0" | b"0000000000000000")
}

// A blackout or a kill: a letter, and then the window as the argument has it.
fn show_window<W: Write>(out: &mut W, direction: Direction, word: &[u8]) -> io::Result<()> {
    let (key, window) = match word {
        [b'b', window @ ..] => ("blackout", window),
        [_, window @ ..] => ("kill", window),
        [] => ("kill", word),
    };
    write!(out, "  --{direction}{key}=")?;
    out.write_all(window)?;
    writeln!(out)
}

// The key of the option whose setting has this name in an answer.
fn key_of(name: &[u8]) -> Option<&'static str> {
    match name {
        b"mode" => Some("mode"),
        b"seed" => Some("seed"),
        b"duration" => Some("duration-ms"),
        b"verbose" => Some("verbose"),
        b"cap" => Some("queue-cap"),
        b"loss" => Some("loss"),
        b"ge" => Some("ge"),
        b"delay" => Some("delay-ms"),
        b"jitter" => Some("jitter-ms"),
        b"reorder" => Some("reorder"),
        b"rdelay" => Some("reorder-delay-ms"),
        b"dup" => Some("duplicate"),
        b"rate" => Some("rate-bps"),
        b"burst" => Some("rate-burst-bytes"),
        b"mtu" => Some("mtu"),
        b"nat" => Some("nat-change-every-ms"),
        _ => None,
    }
}

// Whether the setting's value is floats, which stand as bits in an answer and in decimal in an argument.
fn has_floats(name: &[u8]) -> bool {
    matches!(
        name,
        b"loss" | b"ge" | b"delay" | b"jitter" | b"reorder" | b"rdelay" | b"dup"
    )
}

// Floats, which colons part; a colon that no float stands before is not shown.
fn show_decimals<W: Write>(out: &mut W, value: &[u8]) -> io::Result<()> {
    for part in value.split_inclusive(|byte| *byte == b':') {
        match part {
            b":" => (),
            [float @ .., b':'] => {
                show_decimal(out, float)?;
                out.write_all(b":")?;
            }
            float => show_decimal(out, float)?,
        }
    }
    Ok(())
}

// A word that is not the bits of a float stands as it is.
fn show_decimal<W: Write>(out: &mut W, word: &[u8]) -> io::Result<()> {
    match patterns::pattern_of(word) {
        Some(bits) => write!(out, "{}", FifteenDigits(bits)),
        None => out.write_all(word),
    }
}
