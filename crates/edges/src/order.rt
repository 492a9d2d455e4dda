// The order of refusals: 29, 21, 22, 25. An arrival, and the calls without a length, at an engine whose settings and counters are refused, then at one whose
// counters are, then at one that passes.
use crate::case::Case;
use crate::engines::default_engine;
use engine::ArrivalEngine;
use std::io;
use std::io::Write;

// The least number that no counter may have, 2^60: the tests' own figure, written apart from the code on purpose.
pub const COUNTER_LIMIT: u64 = 0x1000_0000_0000_0000;

// The last instant, and the float behind it.
const LAST_INSTANT: f64 = 9007199254740992.0;

const BEHIND_LAST: f64 = 9007199254740994.0;

pub fn say<W: Write>(out: &mut W) -> io::Result<()> {
    let passing = default_engine();
    let counter_refused = ArrivalEngine {
        rebinds_done: COUNTER_LIMIT,
        ..passing
    };
    let mut settings_refused = counter_refused;
    settings_refused.cfg.delay_ms = f64::NAN;
    Case::new("29 21 22 25", settings_refused).say_arrival(out, f64::NAN, 9217)?;
    Case::new("21 22 25", counter_refused).say_arrival(out, -0.0, 9217)?;
    Case::new("22 25", counter_refused).say_arrival(out, 0.0, 9217)?;
    Case::new("25", counter_refused).say_arrival(out, 0.0, 9216)?;
    Case::new("none", passing).say_arrival(out, 0.0, 9216)?;
    Case::new("29 21 25", settings_refused).say_calls(out, f64::NAN)?;
    Case::new("21 25", counter_refused).say_calls(out, BEHIND_LAST)?;
    Case::new("25", counter_refused).say_calls(out, 0.0)?;
    Case::new("none", passing).say_calls(out, LAST_INSTANT)?;
    Case::new("none, longer than a slot of 2,048 bytes", passing).say_arrival(out, 0.0, 2049)
}
