// What follows the bytes of a line that are kept.
ghost use Rattle.std.specs.Prelude.{◌≡◌};
ghost use Rattle.script.specs.Hex.{digit_of};
ghost use Rattle.script.specs.Beyond.{further_of, all_further, is_paired, is_complete};

use crate::hex;

// The digits are told apart by how many there are, so that a line of any length is known to have whole pairs of digits, where an even number of bytes is kept.
#[derive(Clone, Copy, Debug, PartialEq, Eq)]
pub enum Beyond {
    Nothing,
    EvenDigits,
    OddDigits,
    Other,
}

impl Beyond {
    // With more bytes.
    #[tactic(auto, unfolding(crate::specs::Beyond::all_further))]
    pub(crate) fn further_all(self, bytes: &[u8]) -> Self
        ensures { result ≡ all_further self bytes.now }
    {
        let mut beyond = self;
        for byte in bytes {
            beyond = beyond.further(*byte);
        }
        beyond
    }

    // With one byte more.
    fn further(self, byte: u8) -> Self
        ensures { result ≡ further_of self (digit_of byte) }
    {
        match (hex::digit(byte), self) {
            (None, _) | (_, Beyond::Other) => Beyond::Other,
            (Some(_), Beyond::Nothing | Beyond::EvenDigits) => Beyond::OddDigits,
            (Some(_), Beyond::OddDigits) => Beyond::EvenDigits,
        }
    }

    // Whether only whole pairs of digits follow.
    pub fn is_paired(self) -> bool
        ensures { result ≡ is_paired self }
    {
        matches!(self, Beyond::Nothing | Beyond::EvenDigits)
    }

    // Whether nothing follows.
    pub fn is_complete(self) -> bool
        ensures { result ≡ is_complete self }
    {
        matches!(self, Beyond::Nothing)
    }
}
