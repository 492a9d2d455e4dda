// The keys of an option text that start with a prefix.
ghost use Rattle.std.specs.Prelude.{◌≡◌, ◌++◌};
ghost use Rattle.std.specs.Option.{option_map};
ghost use Rattle.args.specs.Arguments.{last_value_of, values_of};
ghost use Rattle.settings.specs.Lists.{entries_of};

use args::last_of;
use numbers::Refusal;
use settings::{Entries, Entry, entries_at};

#[derive(Clone, Copy)]
pub(crate) struct Keys<'t, 'p> {
    pub text: &'t [u8],
    pub prefix: &'p [u8],
}

impl<'t> Keys<'t, '_> {
    // The last value of the prefix's key of this name.
    pub fn last(self, name: &[u8]) -> Option<&'t [u8]>
        ensures { option_map (λ v. v.now) result ≡ last_value_of (self.entry.prefix.now ++ name.now) self.entry.text.now }
    {
        last_of(self.text, self.prefix, name)
    }

    // The entries of the prefix's key of this name.
    pub fn entries<E: Entry>(self, name: &[u8]) -> Result<Entries<E>, Refusal>
        ensures { result ≡ entries_of E.parsed_of E.empty_of (values_of (self.entry.prefix.now ++ name.now) self.entry.text.now) }
    {
        entries_at(self.text, self.prefix, name)
    }
}
