// Floats, whole numbers and burst loss at the limits of refusal 29.
use crate::creations::say_creation;
use options::Ge;
use std::io;
use std::io::Write;

// The greatest whole number that settings may have, 2^53.
pub const GREATEST: u64 = 0x20_0000_0000_0000;

// The least one that they may not have, 2^53 + 1.
pub const TOO_GREAT: u64 = 0x20_0000_0000_0001;

pub fn say<W: Write>(out: &mut W) -> io::Result<()> {
    say_chances(out)?;
    say_delays(out)?;
    say_numbers(out)?;
    say_burst_losses(out)
}

fn say_chances<W: Write>(out: &mut W) -> io::Result<()> {
    say_creation(out, "loss 1", |settings| settings.loss = 1.0)?;
    say_creation(out, "loss 1.5", |settings| settings.loss = 1.5)?;
    say_creation(out, "loss -0.5", |settings| settings.loss = -0.5)?;
    say_creation(out, "loss nan", |settings| settings.loss = f64::NAN)?;
    say_creation(out, "jitter nan", |settings| settings.jitter_ms = f64::NAN)?;
    say_creation(out, "reorder 1.5", |settings| settings.reorder_p = 1.5)?;
    say_creation(out, "duplicate nan", |settings| {
        settings.duplicate_p = f64::NAN;
    })
}

fn say_delays<W: Write>(out: &mut W) -> io::Result<()> {
    for (name, delay_ms) in [
        ("delay -0", -0.0),
        ("delay 999999999999999", 999999999999999.0),
        ("delay 10^15", 1000000000000000.0),
        ("delay inf", f64::INFINITY),
    ] {
        say_creation(out, name, |settings| settings.delay_ms = delay_ms)?;
    }
    say_creation(out, "reorder delay -1", |settings| {
        settings.reorder_delay_ms = -1.0;
    })?;
    say_creation(out, "reorder delay nan", |settings| {
        settings.reorder_delay_ms = f64::NAN;
    })
}

fn say_numbers<W: Write>(out: &mut W) -> io::Result<()> {
    say_creation(out, "rate 0", |settings| settings.rate_bps = Some(0))?;
    say_creation(out, "rate 2^53", |settings| {
        settings.rate_bps = Some(GREATEST);
    })?;
    say_creation(out, "rate 2^53+1", |settings| {
        settings.rate_bps = Some(TOO_GREAT);
    })?;
    say_creation(out, "mtu 0", |settings| settings.mtu = Some(0))?;
    say_creation(out, "mtu 2^53+1", |settings| {
        settings.mtu = Some(TOO_GREAT as usize);
    })?;
    say_creation(out, "burst 2^53+1", |settings| {
        settings.rate_burst_bytes = TOO_GREAT;
    })?;
    say_creation(out, "period 2^53+1", |settings| {
        settings.nat_change_every_ms = TOO_GREAT;
    })
}

fn say_burst_losses<W: Write>(out: &mut W) -> io::Result<()> {
    for (name, p, r, h) in [
        ("ge 0:0:0", 0.0, 0.0, 0.0),
        ("ge nan:1:1", f64::NAN, 1.0, 1.0),
        ("ge 1:2:1", 1.0, 2.0, 1.0),
        ("ge 1:1:-1", 1.0, 1.0, -1.0),
    ] {
        say_creation(out, name, |settings| settings.ge = Some(Ge { p, r, h }))?;
    }
    Ok(())
}
