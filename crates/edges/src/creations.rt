// The line of a creation: the name of a case, what the calls answer, and between the answers the generator's state.
use crate::engines;
use engine_words::Decided;
use options::DirectionConfig;
use output::Answered;
use std::io;
use std::io::Write;

// Makes an engine of altered settings and has a packet arrive at it, whatever came of the making.
pub fn say_creation<W: Write, F: FnOnce(&mut DirectionConfig)>(
    out: &mut W,
    name: &str,
    alter: F,
) -> io::Result<()>
    requires { F.IsAlwaysCallable alter }
{
    let (engine, created) = engines::creation_of(alter);
    let created = Answered(created.map(|()| "created"));
    write!(out, "{name}: {created} {:016x}", engine.rng.state)?;
    let (_, decided) = engine.decide(0.0, 100);
    writeln!(out, " {}", Answered(decided.map(Decided)))
}
