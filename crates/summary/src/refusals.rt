// Refusals in words.
use numbers::Refusal;
use script::words;
use std::io;
use std::io::Write;

// Shows a refusal, whose number `rest` is, with its reason in words.
pub fn show<W: Write>(out: &mut W, number: u64, rest: &[u8]) -> io::Result<()> {
    // Shown as 0 where the word is no number, so that the program prints what it always did.
    let told = words::whole_of(rest).unwrap_or_default();
    write!(out, "line {number}, refused {told}: ")?;
    if let Some(refusal) = refusal_of(rest) {
        write!(out, "{refusal}")?;
    }
    writeln!(out, " (docs/REFERENCE.md, Refusals)\n")
}

// The reason whose number a word is, written as replay writes it: without a sign or zeros in front.
fn refusal_of(word: &[u8]) -> Option<Refusal> {
    match word {
        [b'1'..=b'9', ..] => Refusal::try_from(u32::try_from(words::whole_of(word)?).ok()?).ok(),
        _ => None,
    }
}

pub fn show_bad_line<W: Write>(out: &mut W, number: u64) -> io::Result<()> {
    writeln!(
        out,
        "line {number} of the script is no call (docs/REFERENCE.md, Scripts)\n"
    )
}
