// An answer line as a person sees it.
use crate::{refusals, report, scenario};
use script::{lines, words};
use std::io;
use std::io::Write;

// Shows an answer line that is about a whole run, and nothing for any other.
pub fn show<W: Write>(out: &mut W, number: u64, line: &[u8]) -> io::Result<()> {
    if line == lines::BAD_LINE.as_bytes() {
        return refusals::show_bad_line(out, number);
    }
    let (word, rest) = words::split_word(line);
    let rest = rest.unwrap_or(b"");
    match word {
        b"report" => report::show(out, number, rest),
        b"taken" => scenario::show(out, number, rest),
        b"refused" => refusals::show(out, number, rest),
        _ => Ok(()),
    }
}
