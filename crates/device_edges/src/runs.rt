// Calls one after the other, each on what the last one left.
use crate::configs;
use crate::host::Host;
use crate::packets::PACKET;
use options::DirectionConfig;
use std::io;
use std::io::Write;

pub fn run<W: Write + Drop>(host: &mut Host<W>) -> io::Result<()> {
    host.case("overflow", overflow)?;
    host.case("reset", reset)?;
    host.case("latency", latency)?;
    host.case("time back", time_back)
}

// Document 01's line: capacity 1, duplicate 1, one arrival: 1 + 1 = overflow 1 + held 1; a second arrival finds no slot for either copy.
fn overflow<W: Write + Drop>(host: &mut Host<W>) -> io::Result<()> {
    host.create(configs::duplicates(), 1, None)?;
    host.arrive(0.0, PACKET)?;
    host.report()?;
    host.arrive(0.0, PACKET)?;
    host.report()
}

// A reset at the start of the kill, 20, tears both copies, and nothing is left for a teardown; at its end, 25, a packet passes again, with the next seq.
fn reset<W: Write + Drop>(host: &mut Host<W>) -> io::Result<()> {
    host.open(configs::kill())?;
    host.arrive(5.0, PACKET)?;
    host.arrive(10.0, PACKET)?;
    host.arrive(20.0, PACKET)?;
    host.report()?;
    host.teardown()?;
    host.release(20.0)?;
    host.arrive(25.0, PACKET)?;
    host.release(25.0)?;
    host.report()
}

// A copy that came at 10 and is due at 15 leaves at 20: its latency is 10, which is now - arrival and not now - due; it leaves neither at 5 nor at 10.
fn latency<W: Write + Drop>(host: &mut Host<W>) -> io::Result<()> {
    host.open(configs::delay(5.0))?;
    host.arrive(10.0, PACKET)?;
    host.release(5.0)?;
    host.release(10.0)?;
    host.release(20.0)?;
    host.report()
}

// After an arrival at 20 one comes at 10: it leaves first, but not before 10, and the other not before 20; the latencies are 0.
fn time_back<W: Write + Drop>(host: &mut Host<W>) -> io::Result<()> {
    host.open(DirectionConfig::default())?;
    host.arrive(20.0, PACKET)?;
    host.arrive(10.0, PACKET)?;
    host.release(5.0)?;
    host.release(10.0)?;
    host.release(15.0)?;
    host.release(20.0)?;
    host.report()
}
