// The values of a key.
ghost use Rattle.std.specs.Prelude.{◌≡◌, ◌++◌};
ghost use Rattle.args.specs.Arguments.{values_of};

use crate::arguments::{Arg, Args};

// The values in what is left of a text of the key `prefix` then `name`.
#[derive(Clone, Copy)]
pub struct Values<'t, 'k> {
    args: Args<'t>,
    prefix: &'k [u8],
    name: &'k [u8],
}

impl<'t, 'k> Values<'t, 'k> {
    ghost use Rattle.args.specs.Left.{values_left};

    #[tactic(auto, unfolding(crate::specs::Left::values_left))]
    pub fn new(text: &'t [u8], prefix: &'k [u8], name: &'k [u8]) -> Values<'t, 'k>
        ensures { values_left result ≡ values_of (prefix.now ++ name.now) text.now }
    {
        Values {
            args: Args::new(text),
            prefix,
            name,
        }
    }
}

impl<'t> Iterator for Values<'t, '_> {
    ghost use Rattle.std.specs.Iterator.{YieldsFirstRef, item_count};
    ghost use Rattle.args.specs.Left.{values_left};

    type Item = &'t [u8];

    ghost next_gives = { YieldsFirstRef values_left };

    ghost remaining = { item_count values_left };

    fn next(&mut self) -> Option<&'t [u8]> {
        'args: while let Some(read) = self.args.next() {
            let Ok(Arg::Pair(key, value)) = read else {
                continue 'args;
            };
            let Some(tail) = key.strip_prefix(self.prefix) else {
                continue 'args;
            };
            if tail.len() != self.name.len() {
                continue 'args;
            }
            // Byte by byte, and not by `==`: a scan leaves its nested loops by label (document 01).
            for (byte, wanted) in tail.iter().zip(self.name) {
                if byte != wanted {
                    continue 'args;
                }
            }
            return Some(value);
        }
        None
    }
}
