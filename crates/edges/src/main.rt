// Calls of the arrival engine on settings and states that no option text and no arrival makes; the file stdout has what document 01 says of them.
#![tactic(auto)]

mod case;
mod creations;
mod engines;
mod limits;
mod lists;
mod order;
mod states;
mod words;

use output::Lossy;
use std::io;
use std::io::{BufWriter, Write};

fn main(rt: HostRuntime) -> io::Result<()> {
    let mut out = BufWriter::new(rt.alloc(), Lossy(io::writer(&rt)))?;
    limits::say(&mut out)?;
    lists::say(&mut out)?;
    order::say(&mut out)?;
    states::say(&mut out)?;
    out.flush()
}
