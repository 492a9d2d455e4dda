// The lines of a script that ask for something.
use crate::asked::Asked;
use crate::line::Line;
use crate::{hex, lines, words};
use std::alloc::{AllocError, Global};

// The call of a line, where it is one: that of the option text which it has in hexadecimal, or that of its words.
pub fn call_of<C, O: FnOnce(Vec<u8>) -> C + Drop, W: FnOnce(&[u8]) -> Option<C> + Drop>(
    alloc: Global,
    line: &[u8],
    of_options: O,
    of_words: W,
) -> Result<Option<C>, AllocError>
    requires options { O.IsAlwaysCallable of_options }
    requires words { W.IsAlwaysCallable of_words }
{
    match words::split_word(line) {
        (b"options", Some(digits)) => Ok(hex::decode(alloc, digits)?.map(of_options)),
        _ if line.len() > lines::LONGEST => Ok(None),
        _ => Ok(of_words(line)),
    }
}

// The same of a line of which the first bytes are kept: its option text is decoded into `text`, as far as there is room.
pub fn kept_call_of<
    'a,
    C,
    O: FnOnce(&'a [u8]) -> C + Drop,
    W: FnOnce(&'a [u8]) -> Option<C> + Drop,
>(line: &'a Line, text: &'a mut [u8], of_options: O, of_words: W) -> Option<C>
    requires options { O.IsAlwaysCallable of_options }
    requires words { W.IsAlwaysCallable of_words }
{
    match line.asked(text) {
        Asked::Text(text) => Some(of_options(text)),
        Asked::Words(line) => of_words(line),
        Asked::Nothing => None,
    }
}
