// Reads a script of calls on devices from standard input and prints an answer line for each of its lines.
#![tactic(auto)]

mod calls;
mod report;
mod session;

use calls::Call;
use output::Lossy;
use session::Session;
use std::io;
use std::io::BufWriter;

fn main(rt: HostRuntime) -> io::Result<()> {
    let alloc = rt.alloc();
    let mut out = BufWriter::new(alloc, Lossy(io::writer(&rt)))?;
    let mut session = Session::new(alloc)?;
    let mut text = vec![in alloc; 0; script::LONGEST_TEXT]?;
    script::lines::answer_kept_calls(alloc, rt.reader(), &mut out, |line, out| {
        let Some(call) = Call::read(line, &mut text) else {
            return Ok(false);
        };
        session.answer(out, call)?;
        Ok(true)
    })
}
