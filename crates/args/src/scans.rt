// Scans of the whole text: its argument list, the bare flag, the last value of a key.
ghost use Rattle.std.specs.Prelude.{◌≡◌, ◌++◌};
ghost use Rattle.std.specs.Option.{option_map};
ghost use Rattle.args.specs.Arguments.{gathered, flag_in, last_value_of};

use crate::arguments::{Arg, Args};
use crate::key_values::Values;
use numbers::Refusal;

// The refusal of the argument list, where there is one.
pub fn check(text: &[u8]) -> Result<(), Refusal>
    ensures { result ≡ (gathered text.now).outcome }
{
    for read in Args::new(text) {
        read?;
    }
    Ok(())
}

// Whether the bare flag stands in the text.
pub fn has_flag(text: &[u8]) -> bool
    ensures { result ≡ flag_in (gathered text.now).items }
{
    Args::new(text).any(|read| matches!(read, Ok(Arg::Flag)))
}

// The last value of the key `prefix` then `name`.
pub fn last_of<'t>(text: &'t [u8], prefix: &[u8], name: &[u8]) -> Option<&'t [u8]>
    ensures { option_map (λ v. v.now) result ≡ last_value_of (prefix.now ++ name.now) text.now }
{
    Values::new(text, prefix, name).last()
}
