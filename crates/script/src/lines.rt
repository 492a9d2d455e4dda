// The lines of an input, each ended by a line feed; a last line without one counts where it has bytes. They are handed on whole, or as a `Line`, which keeps
// the first bytes of each, so that no line takes more memory than another.
ghost use Rattle.std.specs.Prelude.{◌≡◌, IfOk, IfSome, OnOk};
ghost use Rattle.std.specs.Io.BufRead.{DropsThrough, strip_last};
ghost use Rattle.script.specs.Lines.{line_feed, has_line, line_of, known_of, nothing_known, with_bytes, TakesAnyLine};

use crate::input::UntilFailure;
use crate::line;
use crate::line::Line;
use std::alloc::Global;
use std::io;
use std::io::{BufRead, BufReader, ErrorKind, Read, Write};

// The answer to a line that asks for nothing.
pub const BAD_LINE: &str = "bad line";

// The longest line in bytes that asks for something without an option text.
pub const LONGEST: usize = line::LONGEST;

// Puts the next line into `line`, without its line feed, and says whether there is one. The caller lends `line`, so that one buffer serves for all lines.
pub fn next_line<R: BufRead>(input: &mut R, line: &mut Vec<u8>) -> io::Result<bool>
    ensures line { IfOk result (λ there. IfSome (R.remaining input.old) (λ bytes. (there ≡ has_line bytes) × (line.new.items ≡ line_of bytes))) }
    ensures rest { OnOk result (DropsThrough (R.remaining input.old) (R.remaining input.new) line_feed) }
{
    line.clear();
    let count = input.read_until(b'\n', line)?;
    end_line(line);
    Ok(count > 0)
}

// Takes the line feed off.
fn end_line(line: &mut Vec<u8>)
    ensures { line.new.items ≡ strip_last line_feed line.old.items }
{
    if line.last() == Some(&b'\n') {
        line.pop();
    }
}

// Has each line of the input answered; what is answered is written before more input is waited for.
pub fn answer_lines<R: Read + Drop, W: Write, F: FnMut(&[u8], &mut W) -> io::Result<()>>(
    alloc: Global,
    input: R,
    out: &mut W,
    mut answer: F,
) -> io::Result<()>
    requires { F.IsAlwaysCallable answer }
{
    let mut input = BufReader::new(alloc, input)?;
    let mut line = Vec::new(alloc);
    // Not `loop`: a bound on the turns proves that this ends, whatever the input has.
    for _ in 0..u64::MAX {
        if !next_line(&mut input, &mut line)? {
            break;
        }
        answer(&line, out)?;
        if !input.buffer().contains(&b'\n') {
            out.flush()?;
        }
    }
    out.flush()
}

// Has each line answered, by "bad line" where the closure says that it is no call, and ends each answer with a line feed.
pub fn answer_calls<R: Read + Drop, W: Write, F: FnMut(&[u8], &mut W) -> io::Result<bool>>(
    alloc: Global,
    input: R,
    out: &mut W,
    mut answer: F,
) -> io::Result<()>
    requires { TakesAnyLine F.pre }
{
    answer_lines(
        alloc,
        input,
        out,
        |line, out|
            requires { TakesAnyLine F.pre }
        { answer_call(line, out, &mut answer) },
    )
}

// Answers one line. A function of its own: written in the closure above, the proof of its borrows does not close.
fn answer_call<W: Write, F: FnMut(&[u8], &mut W) -> io::Result<bool>>(
    line: &[u8],
    out: &mut W,
    answer: &mut F,
) -> io::Result<()>
    requires { TakesAnyLine F.pre }
{
    if !answer(line, out)? {
        out.write_all(BAD_LINE.as_bytes())?;
    }
    writeln!(out)
}

// As `next_line`, of the bytes of a line that are kept and of what is known of those behind them.
pub fn next_kept_line<R: BufRead>(input: &mut R, line: &mut Line) -> io::Result<bool>
    ensures line { IfOk result (λ there. IfSome (R.remaining input.old) (λ bytes. (there ≡ has_line bytes) × (known_of line.new ≡ with_bytes nothing_known (line_of bytes)))) }
    ensures rest { OnOk result (DropsThrough (R.remaining input.old) (R.remaining input.new) line_feed) }
{
    line.clear();
    for _ in 0..u64::MAX {
        let chunk = input.fill_buf()?;
        if chunk.is_empty() {
            return Ok(line.has_begun());
        }
        let cut = line.cut(chunk);
        input.consume(cut.used);
        if cut.ended {
            return Ok(true);
        }
    }
    Err(ErrorKind::TimedOut.into())
}

// As `answer_lines`, of lines of which the first bytes are kept; a read that fails is the end of the input.
pub fn answer_kept_lines<R: Read + Drop, W: Write, F: FnMut(&Line, &mut W) -> io::Result<()>>(
    alloc: Global,
    input: R,
    out: &mut W,
    mut answer: F,
) -> io::Result<()>
    requires { F.IsAlwaysCallable answer }
{
    let mut input = BufReader::new(alloc, UntilFailure(input))?;
    let mut line = Line::new(alloc)?;
    // Not `loop`: a bound on the turns proves that this ends, whatever the input has.
    for _ in 0..u64::MAX {
        if !next_kept_line(&mut input, &mut line)? {
            break;
        }
        answer(&line, out)?;
        if !input.buffer().contains(&b'\n') {
            out.flush()?;
        }
    }
    out.flush()
}

// As `answer_calls`, of lines of which the first bytes are kept.
pub fn answer_kept_calls<R: Read + Drop, W: Write, F: FnMut(&Line, &mut W) -> io::Result<bool>>(
    alloc: Global,
    input: R,
    out: &mut W,
    mut answer: F,
) -> io::Result<()>
    requires { TakesAnyLine F.pre }
{
    answer_kept_lines(
        alloc,
        input,
        out,
        |line, out|
            requires { TakesAnyLine F.pre }
        { answer_kept_call(line, out, &mut answer) },
    )
}

// Answers one line, as `answer_call` does.
fn answer_kept_call<W: Write, F: FnMut(&Line, &mut W) -> io::Result<bool>>(
    line: &Line,
    out: &mut W,
    answer: &mut F,
) -> io::Result<()>
    requires { TakesAnyLine F.pre }
{
    if !answer(line, out)? {
        out.write_all(BAD_LINE.as_bytes())?;
    }
    writeln!(out)
}
