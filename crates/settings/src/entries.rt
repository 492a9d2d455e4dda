// The options that gather in order: blackouts and kills.
ghost use Rattle.std.specs.Prelude.{◌≡◌, ◌++◌, List, ℕ, Result};
ghost use Rattle.numbers.specs.declared.refusal.Refusal.{Refusal as Refused};
ghost use Rattle.args.specs.Arguments.{values_of};
ghost use Rattle.settings.specs.Lists.{no_entries, with_entry, with_value, entries_of};

use args::Values;
use numbers::{MAX_ENTRIES, Refusal};

// What stands in a list: it is read from the value of an option, and one of them fills what is not counted. That one is a filler and
// no setting, so it is no `Default`.
pub trait Entry: Copy {
    ghost parsed_of: { List ℕ → Result Self Refused };

    ghost empty_of: { Self };

    fn empty() -> Self
        ensures { result ≡ empty_of };

    fn parse(v: &[u8]) -> Result<Self, Refusal>
        ensures { result ≡ parsed_of v.now };
}

// What was gathered: the first `count` entries. Document 01 has such a list as an array of 128 with a count.
#[derive(Clone, Copy)]
pub struct Entries<E> {
    pub entries: [E; MAX_ENTRIES],
    pub count: usize,
}

impl<E: Entry> Entries<E> {
    #[tactic(auto, unfolding(crate::specs::Lists::no_entries))]
    fn none() -> Entries<E>
        ensures { result ≡ no_entries E.empty_of }
    {
        Entries {
            entries: [E::empty(); MAX_ENTRIES],
            count: 0,
        }
    }

    // One entry more.
    #[tactic(auto, unfolding(crate::specs::Lists::with_entry))]
    fn with(mut self, entry: E) -> Result<Entries<E>, Refusal>
        ensures { result ≡ with_entry self entry }
    {
        if self.count >= MAX_ENTRIES {
            return Err(Refusal::Entries);
        }
        self.entries[self.count] = entry;
        self.count += 1;
        Ok(self)
    }

    // The entry of one value more.
    fn with_value(self, v: &[u8]) -> Result<Entries<E>, Refusal>
        ensures { result ≡ with_value E.parsed_of self v.now }
    {
        self.with(E::parse(v)?)
    }
}

// The entries of the key `prefix` then `name`, in the text's order.
pub fn entries_at<E: Entry>(text: &[u8], prefix: &[u8], name: &[u8]) -> Result<Entries<E>, Refusal>
    ensures { result ≡ entries_of E.parsed_of E.empty_of (values_of (prefix.now ++ name.now) text.now) }
{
    let mut entries = Entries::none();
    for value in Values::new(text, prefix, name) {
        entries = entries.with_value(value)?;
    }
    Ok(entries)
}
