// Reads the answers of the program replay and shows them for a person: each scenario that was taken, each report, and what was refused.
#![tactic(auto)]

mod answers;
mod bars;
mod decimal;
mod digits;
mod option;
mod refusals;
mod report;
mod report_line;
mod scenario;

use output::Lossy;
use std::io;
use std::io::BufWriter;

fn main(rt: HostRuntime) -> io::Result<()> {
    let alloc = rt.alloc();
    let mut out = BufWriter::new(alloc, Lossy(io::writer(&rt)))?;
    let mut number = 0u64;
    script::lines::answer_kept_lines(alloc, rt.reader(), &mut out, |line, out| {
        number = number.saturating_add(1);
        answers::show(out, number, line.kept())
    })
}
