// Drives queues by calls that are drawn at random, and compares every answer with that of a plain list. The file stdout has for each capacity how many calls
// there were, how many of them were answered as entered, released, none due, full and drained, and how many answers were apart; and the same for other slot
// widths, on which none of these numbers depends.
#![tactic(auto)]

mod counts;
mod draw;
mod list;
mod runs;

use crate::counts::TallyWords;
use output::Lossy;
use std::alloc::Global;
use std::io;
use std::io::{BufWriter, Write};

fn main(rt: HostRuntime) -> io::Result<()> {
    let alloc = rt.alloc();
    let mut out = BufWriter::new(alloc, Lossy(io::writer(&rt)))?;
    capacities(alloc, &mut out)?;
    widths(alloc, &mut out)?;
    out.flush()
}

// Slots of 2,048 bytes.
fn capacities<W: Write>(alloc: Global, out: &mut W) -> io::Result<()> {
    for cap in [1, 2, 15, 16, 17, 33, 64] {
        let tally = runs::compared(alloc, cap, 2048)?;
        writeln!(out, "capacity {cap}: {}", TallyWords(&tally))?;
    }
    Ok(())
}

// Capacity 17.
fn widths<W: Write>(alloc: Global, out: &mut W) -> io::Result<()> {
    for width in [64, 65, 200, 1500, 9216] {
        let tally = runs::compared(alloc, 17, width)?;
        writeln!(out, "capacity 17 width {width}: {}", TallyWords(&tally))?;
    }
    Ok(())
}
