// The settings of a `taken` line as the arguments that give them.
use crate::option;
use crate::option::Direction;
use std::io;
use std::io::Write;

// Shows the settings that `rest` has, each of its words as an argument; a bracket opens the settings of a direction.
pub fn show<W: Write>(out: &mut W, number: u64, rest: &[u8]) -> io::Result<()> {
    writeln!(out, "line {number}, taken:")?;
    let mut direction = Direction::Both;
    for word in rest.split_inclusive(|byte| *byte == b' ') {
        let own = if word.starts_with(b"[") {
            direction.opened()
        } else {
            direction
        };
        option::show(out, own, bare(word))?;
        direction = behind(direction, word);
    }
    writeln!(out)
}

// The direction behind the opening brackets of a word.
fn behind(direction: Direction, word: &[u8]) -> Direction {
    word.iter().fold(direction, |direction, byte| match byte {
        b'[' => direction.opened(),
        _ => direction,
    })
}

// The word without its brackets and the blank behind it.
fn bare(word: &[u8]) -> &[u8] {
    let word = word.strip_suffix(b" ").unwrap_or(word);
    let inner = values::before_first(word, b']');
    inner.strip_prefix(b"[").unwrap_or(inner)
}
