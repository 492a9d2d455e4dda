// States that are handed in: whatever they are, the answer is document 01's.
use crate::case::Case;
use crate::engines::{default_engine, engine_of};
use crate::order::COUNTER_LIMIT;
use engine::ArrivalEngine;
use options::{DirectionConfig, Ge};
use std::io;
use std::io::Write;

pub fn say<W: Write>(out: &mut W) -> io::Result<()> {
    say_credits(out)?;
    say_last_refills(out)?;
    say_zero_generators(out)?;
    say_next_rebinds(out)?;
    let mut engine = default_engine();
    engine.stats.received_pkts = COUNTER_LIMIT - 1;
    Case::new("received 2^60-1", engine).say_two_arrivals(out)
}

// A line of 8,000 bits a second, whose bucket holds 1,500 bytes: one byte is one millisecond.
fn limited_engine() -> ArrivalEngine {
    engine_of(|settings| settings.rate_bps = Some(8000))
}

fn say_credits<W: Write>(out: &mut W) -> io::Result<()> {
    for (name, tokens) in [
        ("credit nan", f64::NAN),
        ("credit inf", f64::INFINITY),
        ("credit -inf", f64::NEG_INFINITY),
        ("credit -4000", -4000.0),
    ] {
        let mut engine = limited_engine();
        engine.tokens = tokens;
        Case::new(name, engine).say_arrival(out, 0.0, 500)?;
    }
    let mut engine = default_engine();
    engine.tokens = -4000.0;
    Case::new("credit -4000 without rate", engine).say_arrival(out, 0.0, 500)
}

// Instants of the last refill, with a credit of 0.
fn say_last_refills<W: Write>(out: &mut W) -> io::Result<()> {
    for (name, last_refill_ms) in [
        ("last refill nan", f64::NAN),
        ("last refill -inf", f64::NEG_INFINITY),
        ("last refill 200", 200.0),
        ("last refill -300", -300.0),
    ] {
        let mut engine = limited_engine();
        engine.tokens = 0.0;
        engine.last_refill_ms = last_refill_ms;
        Case::new(name, engine).say_arrival(out, 100.0, 500)?;
    }
    Ok(())
}

// A generator state of 0, which stays 0, and each of its draws is 0.
fn say_zero_generators<W: Write>(out: &mut W) -> io::Result<()> {
    let losing = with_zero_generator(|settings| settings.loss = 0.5);
    Case::new("state 0 loss 0.5", losing).say_two_arrivals(out)?;
    for (name, p) in [("state 0 ge 0:1:0.5", 0.0), ("state 0 ge 0.5:1:0.5", 0.5)] {
        let bursting = with_zero_generator(|settings| {
            settings.ge = Some(Ge { p, r: 1.0, h: 0.5 });
        });
        Case::new(name, bursting).say_two_arrivals(out)?;
    }
    Ok(())
}

fn with_zero_generator<F: FnOnce(&mut DirectionConfig)>(alter: F) -> ArrivalEngine
    requires { F.IsAlwaysCallable alter }
{
    let mut engine = engine_of(alter);
    engine.rng.state = 0;
    engine
}

// Next rebinds with a period of 10 ms.
fn say_next_rebinds<W: Write>(out: &mut W) -> io::Result<()> {
    for (name, next_rebind_ms) in [
        ("next rebind -5", -5.0),
        ("next rebind 0", 0.0),
        ("next rebind inf", f64::INFINITY),
        ("next rebind nan", f64::NAN),
    ] {
        let mut engine = engine_of(|settings| settings.nat_change_every_ms = 10);
        engine.next_rebind_ms = next_rebind_ms;
        Case::new(name, engine).say_two_rebinds(out)?;
    }
    Ok(())
}
