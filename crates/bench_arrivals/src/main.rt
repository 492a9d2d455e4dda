// The benchmark's loop of arrivals, at an engine of the settings of the option text on standard input.
#![tactic(auto)]

mod decides;

use output::Lossy;
use script::UntilFailure;
use std::io;
use std::io::{BufWriter, Write};

fn main(rt: HostRuntime) -> io::Result<()> {
    let alloc = rt.alloc();
    let mut out = BufWriter::new(alloc, Lossy(io::writer(&rt)))?;
    let text = bench_sums::read_text(alloc, UntilFailure(rt.reader()))?;
    decides::run(&text, &mut out)?;
    out.flush()
}
