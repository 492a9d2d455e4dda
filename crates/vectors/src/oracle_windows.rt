// The lines that oracle/src/windows.rs prints of the Rust source.
use crate::floats::FLOATS;
use options::Window;
use output::Bits;
use std::io;
use std::io::Write;

// Just below, at and just above 10 and 20, and the two largest floats that a bound can become.
const NEAR: [f64; 8] = [
    9.999999999999998,
    10.0,
    10.000000000000002,
    19.999999999999996,
    20.0,
    20.000000000000004,
    18446744073709549568.0,
    18446744073709551616.0,
];

// Empty, ordinary and reversed windows, bounds around 2^53 that are rounded as floats, and the largest.
const BOUNDS: [(u64, u64); 8] = [
    (0, 0),
    (0, 1),
    (10, 20),
    (20, 10),
    (9007199254740991, 9007199254740993),
    (9007199254740993, 9007199254740995),
    (0, 18446744073709551615),
    (18446744073709550591, 18446744073709550592),
];

pub fn windows<W: Write>(out: &mut W) -> io::Result<()> {
    for (start_ms, end_ms) in BOUNDS {
        of_window(out, Window { start_ms, end_ms })?;
    }
    Ok(())
}

// Whether the window holds the sixteen floats, and then those near.
fn of_window<W: Write>(out: &mut W, window: Window) -> io::Result<()> {
    for t_ms in FLOATS.iter().chain(NEAR.iter()) {
        let holds = u8::from(window.contains(*t_ms));
        write!(out, "contains {} {}", window.start_ms, window.end_ms)?;
        writeln!(out, " {} {holds}", Bits(*t_ms))?;
    }
    Ok(())
}
