// Calls of the device on states, memory and arguments that no script makes; the file stdout has what documents 01 and 02 say of them. A line has the name
// of a case and the answers to its calls, one after the other.
#![tactic(auto)]

mod altered;
mod calls;
mod configs;
mod counters;
mod creations;
mod host;
mod order;
mod packets;
mod payloads;
mod runs;
mod state;
mod widths;
mod words;

use host::Host;
use output::Lossy;
use std::io;
use std::io::{BufWriter, Write};

fn main(rt: HostRuntime) -> io::Result<()> {
    let alloc = rt.alloc();
    let mut host = Host::new(alloc, BufWriter::new(alloc, Lossy(io::writer(&rt)))?)?;
    creations::run(&mut host)?;
    order::run(&mut host)?;
    counters::run(&mut host)?;
    altered::run(&mut host)?;
    runs::run(&mut host)?;
    payloads::run(&mut host)?;
    widths::run(&mut host)?;
    host.out.flush()
}
