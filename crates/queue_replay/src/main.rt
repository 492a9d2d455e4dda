// Reads a script of calls on a queue from standard input and prints an answer line for each of its lines.
#![tactic(auto)]

mod request;
mod session;

use output::Lossy;
use session::Session;
use std::io;
use std::io::BufWriter;

fn main(rt: HostRuntime) -> io::Result<()> {
    let alloc = rt.alloc();
    let mut out = BufWriter::new(alloc, Lossy(io::writer(&rt)))?;
    let mut session = Session::new(alloc)?;
    script::lines::answer_kept_calls(alloc, rt.reader(), &mut out, |line, out| {
        session.answer(line, out)
    })
}
