// Lines of document 01.
use draws::Rng;
use output::Bits;
use std::io;
use std::io::Write;

// Instants and what is none, by refusal 21.
const INSTANTS: [f64; 14] = [
    0.0,
    -0.0,
    5e-324,
    -5e-324,
    0.5,
    -0.5,
    9007199254740991.0,
    9007199254740992.0,
    9007199254740994.0,
    -9007199254740992.0,
    1.7976931348623157e308,
    f64::INFINITY,
    f64::NEG_INFINITY,
    f64::NAN,
];

// Document 01's latencies.
const LATENCIES_MS: [f64; 6] = [0.5, 1.0, 4999.0, 5000.0, -3.0, f64::NAN];

// The generator of seed 1 after one draw: its state and output, and whether loss 0.25 and 0.3 drop.
pub fn seed_one<W: Write>(out: &mut W) -> io::Result<()> {
    let (after, value) = Rng::new(1).next_u64();
    write!(out, "seed 1 {:016x} {value:016x}", after.state)?;
    let (_, draw) = Rng::new(1).next_f64();
    let quarter = u8::from(draw < 25.0 / 100.0);
    let three_tenths = u8::from(draw < 3.0 / 10.0);
    writeln!(out, " {quarter} {three_tenths}")
}

// Which floats are instants.
pub fn instants<W: Write>(out: &mut W) -> io::Result<()> {
    for t in INSTANTS {
        let is_instant = u8::from(numbers::is_instant(t));
        writeln!(out, "instant {} {is_instant}", Bits(t))?;
    }
    Ok(())
}

// The buckets of the latencies.
pub fn buckets<W: Write>(out: &mut W) -> io::Result<()> {
    for latency_ms in LATENCIES_MS {
        let bucket = accounts::bucket_index(latency_ms);
        writeln!(out, "bucket {} {bucket}", Bits(latency_ms))?;
    }
    Ok(())
}
