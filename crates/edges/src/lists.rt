// Windows and kills at the limits of refusal 29: only the counted entries are judged.
use crate::creations::say_creation;
use crate::limits::{GREATEST, TOO_GREAT};
use numbers::MAX_ENTRIES;
use options::{KillStyle, TcpKill, Window};
use std::io;
use std::io::Write;

pub fn say<W: Write>(out: &mut W) -> io::Result<()> {
    say_first_blackouts(out)?;
    say_full_blackouts(out)?;
    say_first_kills(out)?;
    say_full_kills(out)
}

// A window as the first blackout, and how many are counted.
fn say_first_blackouts<W: Write>(out: &mut W) -> io::Result<()> {
    for (name, start_ms, end_ms, count) in [
        ("blackout 5:5 counted", 5, 5, 1),
        ("blackout 5:5 not counted", 5, 5, 0),
        ("blackout 5:6 of two", 5, 6, 2),
        ("blackout 0:2^53", 0, GREATEST, 1),
        ("blackout 0:2^53+1", 0, TOO_GREAT, 1),
    ] {
        say_creation(out, name, |settings| {
            settings.blackouts[0] = Window { start_ms, end_ms };
            settings.blackout_count = count;
        })?;
    }
    Ok(())
}

fn say_full_blackouts<W: Write>(out: &mut W) -> io::Result<()> {
    let window = Window {
        start_ms: 5,
        end_ms: 6,
    };
    for (name, count) in [("blackouts 128", 128), ("blackouts 129", 129)] {
        say_creation(out, name, |settings| {
            settings.blackouts = [window; MAX_ENTRIES];
            settings.blackout_count = count;
        })?;
    }
    Ok(())
}

// A window as the first kill, and how many are counted.
fn say_first_kills<W: Write>(out: &mut W) -> io::Result<()> {
    for (name, start_ms, end_ms, count) in [
        ("kill 6:5 counted", 6, 5, 1),
        ("kill 6:5 not counted", 6, 5, 0),
        ("kill 5:6", 5, 6, 1),
    ] {
        say_creation(out, name, |settings| {
            settings.tcp_kills[0] = kill_of(start_ms, end_ms);
            settings.tcp_kill_count = count;
        })?;
    }
    Ok(())
}

fn say_full_kills<W: Write>(out: &mut W) -> io::Result<()> {
    for (name, count) in [("kills 128", 128), ("kills 129", 129)] {
        say_creation(out, name, |settings| {
            settings.tcp_kills = [kill_of(5, 6); MAX_ENTRIES];
            settings.tcp_kill_count = count;
        })?;
    }
    Ok(())
}

fn kill_of(start_ms: u64, end_ms: u64) -> TcpKill {
    TcpKill {
        window: Window { start_ms, end_ms },
        style: KillStyle::Rst,
    }
}
