// What a line asks by.
ghost use Rattle.std.specs.Prelude.{◌≡◌, length};
ghost use Rattle.script.specs.Lines.{known_of};
ghost use Rattle.script.specs.Asked.{told, asked_of};

use crate::line::Line;
use crate::{hex, words};

// The option text that a line has, or its words; or that it asks for nothing.
#[derive(Clone, Copy)]
pub enum Asked<'a> {
    Text(&'a [u8]),
    Words(&'a [u8]),
    Nothing,
}

impl Line {
    // The option text is decoded into `text`, as far as there is room.
    pub fn asked<'a>(&'a self, text: &'a mut [u8]) -> Asked<'a>
        ensures { told result ≡ asked_of (length text.old) (known_of self.now) }
    {
        let (word, digits) = words::split_word(self.kept());
        if word != b"options".as_slice() {
            return self.whole().map_or(Asked::Nothing, Asked::Words);
        }
        match digits {
            Some(digits) if self.beyond().is_paired() => {
                hex::decode_into(digits, text).map_or(Asked::Nothing, Asked::Text)
            }
            _ => Asked::Nothing,
        }
    }
}
