// The benchmark's loops: without input packets are accounted, and an option text on standard input is read again and again.
#![tactic(auto)]

mod parses;
mod sends;

use output::Lossy;
use script::UntilFailure;
use std::io;
use std::io::{BufWriter, Write};

fn main(rt: HostRuntime) -> io::Result<()> {
    let alloc = rt.alloc();
    let mut out = BufWriter::new(alloc, Lossy(io::writer(&rt)))?;
    let text = bench_sums::read_text(alloc, UntilFailure(rt.reader()))?;
    if text.is_empty() {
        sends::run(&mut out)?;
    } else {
        parses::run(&text, &mut out)?;
    }
    out.flush()
}
