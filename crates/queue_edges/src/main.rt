// Calls of the queue on memory and states that no earlier call has left; the file stdout has what documents 01 and 02 say of them, and of
// calls that are drawn how many had each answer.
#![tactic(auto)]

mod altered;
mod case;
mod chosen;
mod counts;
mod creations;
mod judged;
mod limits;
mod lines;
mod marks;
mod order;
mod parts;
mod scatter;
mod seqs_end;
mod short;
mod states;
mod twice;
mod widths;

use crate::lines::Lines;
use output::Lossy;
use std::io;
use std::io::{BufWriter, Write};

fn main(rt: HostRuntime) -> io::Result<()> {
    let alloc = rt.alloc();
    let out = BufWriter::new(alloc, Lossy(io::writer(&rt)))?;
    let mut lines = Lines { alloc, out };
    creations::capacities(&mut lines)?;
    short::tables(&mut lines)?;
    order::pushes(&mut lines)?;
    order::releases(&mut lines)?;
    order::questions(&mut lines)?;
    order::drains(&mut lines)?;
    limits::instants(&mut lines)?;
    limits::copies(&mut lines)?;
    limits::counters(&mut lines)?;
    seqs_end::run(&mut lines)?;
    twice::pushes(&mut lines)?;
    parts::ends(&mut lines)?;
    parts::many(&mut lines)?;
    altered::run(&mut lines)?;
    widths::creations(&mut lines)?;
    widths::slots(&mut lines)?;
    widths::altered(&mut lines)?;
    parts::widths(&mut lines)?;
    altered::run_widths(&mut lines)?;
    lines.out.flush()
}
