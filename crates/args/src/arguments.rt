// The arguments of an option text, one by one; a zero byte ends each.
ghost use Rattle.std.specs.Prelude.{◌≡◌, ◌∷◌, None};
ghost use Rattle.args.specs.Arguments.{arguments_of, gather};
ghost use Rattle.args.specs.Reads.{reads_of};
ghost use Rattle.args.specs.Left.{read_of, then_left};

use crate::dashes::stripped;
use numbers::Refusal;
use values::split_once;

// An argument of a text: the bare flag, or a key with its value.
#[derive(Clone, Copy, Debug, PartialEq, Eq)]
pub enum Arg<'t> {
    Flag,
    Pair(&'t [u8], &'t [u8]),
}

// The arguments of what is left of a text. A refusal is the last that is read.
#[derive(Clone, Copy)]
pub struct Args<'t> {
    rest: &'t [u8],
}

impl<'t> Args<'t> {
    pub fn new(text: &'t [u8]) -> Args<'t>
        ensures { result.rest.now ≡ text.now }
    {
        Args { rest: text }
    }

    // What the argument says, behind what is left; a key without a value takes the argument behind it.
    // Document 01 gives the cursor's step this form; the trait asks for `&mut self` in `next`.
    fn read(mut self, argument: &'t [u8]) -> (Args<'t>, Result<Arg<'t>, Refusal>)
        ensures { reads_of (gather None (argument.now ∷ arguments_of self.entry.rest.now)) ≡ then_left (read_of result.1) result.0 }
    {
        if !argument.starts_with(b"--") {
            return (self, Err(Refusal::Argument));
        }
        if let Some((key, value)) = split_once(argument, b'=') {
            return (self, Ok(Arg::Pair(stripped(key), value)));
        }
        let key = stripped(argument);
        if key == b"verbose".as_slice() {
            return (self, Ok(Arg::Flag));
        }
        let Some((value, rest)) = split_once(self.rest, 0) else {
            return (self, Err(Refusal::ValueLacking));
        };
        self.rest = rest;
        (self, Ok(Arg::Pair(key, value)))
    }
}

impl<'t> Iterator for Args<'t> {
    ghost use Rattle.std.specs.Iterator.{YieldsFirstBy, item_count};
    ghost use Rattle.args.specs.Left.{read_of, args_left};

    type Item = Result<Arg<'t>, Refusal>;

    ghost next_gives = { YieldsFirstBy read_of args_left };

    ghost remaining = { item_count args_left };

    fn next(&mut self) -> Option<Result<Arg<'t>, Refusal>> {
        let (argument, behind) = split_once(self.rest, 0)?;
        let (left, read) = Args { rest: behind }.read(argument);
        match read {
            Ok(arg) => {
                *self = left;
                Some(Ok(arg))
            }
            Err(refusal) => {
                self.rest = &[];
                Some(Err(refusal))
            }
        }
    }
}
