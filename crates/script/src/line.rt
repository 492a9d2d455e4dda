// A line, as its bytes come in.
ghost use Rattle.std.specs.Prelude.{◌≡◌, ◌≤◌, vec_len};

use crate::beyond::Beyond;
use std::alloc::{AllocError, Global};

// So many bytes of a line are kept, which are an even number, as `Beyond` asks.
pub const LONGEST: usize = 65536;

// Room for the option text of any line: two of the bytes that are kept stand for one of its bytes.
pub const LONGEST_TEXT: usize = 32768;

// A line that has begun: its first bytes stand at the front of `buffer`, which serves for all lines.
#[derive(Drop)]
pub struct Line {
    buffer: Vec<u8>,
    length: usize,
    beyond: Beyond,
    ghost whole: { vec_len buffer ≡ 65536 },
    ghost fits: { length ≤ 65536 },
}

// How many bytes of a chunk a line took, its line feed too, and whether it has ended.
#[derive(Clone, Copy)]
pub struct Cut {
    pub used: usize,
    pub ended: bool,
}

impl Line {
    ghost use Rattle.std.specs.Prelude.{IfOk, option_map, Some, None, if◌then◌else◌};
    ghost use Rattle.script.specs.Beyond.{is_complete};
    ghost use Rattle.script.specs.Lines.{known_of, kept_of, nothing_known, with_bytes, cut_line_of, has_begun};

    // A line of which nothing has come.
    pub fn new(alloc: Global) -> Result<Self, AllocError>
        ensures { IfOk result (λ line. known_of line ≡ nothing_known) }
    {
        Ok(Line {
            buffer: vec![in alloc; 0; LONGEST]?,
            length: 0,
            beyond: Beyond::Nothing,
        })
    }

    // The next line begins.
    pub fn clear(&mut self)
        ensures { known_of self.new ≡ nothing_known }
    {
        self.length = 0;
        self.beyond = Beyond::Nothing;
    }

    // The bytes that are kept.
    pub fn kept(&self) -> &[u8]
        ensures { result.now ≡ kept_of self.now }
    {
        &self.buffer[..self.length]
    }

    pub fn beyond(&self) -> Beyond
        ensures { result ≡ self.now.beyond }
    {
        self.beyond
    }

    // The bytes, where nothing follows those that are kept.
    pub fn whole(&self) -> Option<&[u8]>
        ensures { option_map (λ bytes. bytes.now) result ≡ (if is_complete self.now.beyond then Some (kept_of self.now) else None) }
    {
        if self.beyond.is_complete() {
            Some(self.kept())
        } else {
            None
        }
    }

    // Whether any byte has come.
    pub fn has_begun(&self) -> bool
        ensures { result ≡ has_begun (known_of self.now) }
    {
        self.length > 0
    }

    // Takes the bytes of the chunk in, up to the line's end where it is there.
    pub fn cut(&mut self, chunk: &[u8]) -> Cut
        ensures { (result, known_of self.new) ≡ cut_line_of chunk.now (known_of self.old) }
    {
        match values::split_once(chunk, b'\n') {
            Some((bytes, _)) => {
                self.append(bytes);
                Cut {
                    used: bytes.len() + 1,
                    ended: true,
                }
            }
            None => {
                self.append(chunk);
                Cut {
                    used: chunk.len(),
                    ended: false,
                }
            }
        }
    }

    // More bytes, which are kept where there is room.
    fn append(&mut self, bytes: &[u8])
        ensures { known_of self.new ≡ with_bytes (known_of self.old) bytes.now }
    {
        let start = self.length;
        let fitting = bytes.len().min(LONGEST - start);
        let (kept, further) = bytes.split_at(fitting);
        self.buffer[start..start + fitting].copy_from_slice(kept);
        self.length = start + fitting;
        self.beyond = self.beyond.further_all(further);
    }
}
