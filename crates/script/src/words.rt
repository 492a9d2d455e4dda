// The words of a line, which single blanks part, and the numbers among them.
ghost use Rattle.std.specs.Prelude.{◌≡◌, option_map, option_and_then, None, Some, if◌then◌else◌, from_bits};
ghost use Rattle.std.specs.Float.{binary64};
ghost use Rattle.std.specs.Option.{is_none};
ghost use Rattle.script.specs.Patterns.{pattern_of};
ghost use Rattle.script.specs.Words.{first_word_of, rest_of, goes_on, whole_of};

use crate::patterns;

// The first word of a line, and what stands behind the first blank where there is one.
pub fn split_word(line: &[u8]) -> (&[u8], Option<&[u8]>)
    ensures word { result.0.now ≡ first_word_of line.now }
    ensures rest { option_map (λ rest. rest.now) result.1 ≡ (if goes_on line.now then Some (rest_of line.now) else None) }
{
    match values::split_once(line, b' ') {
        Some((word, rest)) => (word, Some(rest)),
        None => (line, None),
    }
}

// The whole number that a word stands for.
pub fn whole_of(word: &[u8]) -> Option<u64>
    ensures { result ≡ whole_of word.now }
{
    values::parse_u64(word).ok()
}

// The words of a line that are not read yet, where there are any.
#[derive(Clone, Copy)]
pub struct Words<'a> {
    left: Option<&'a [u8]>,
}

impl<'a> Words<'a> {
    pub fn new(line: &'a [u8]) -> Self
        ensures { option_map (λ left. left.now) result.left ≡ Some line.now }
    {
        Words { left: Some(line) }
    }

    // The next word as a whole number.
    pub fn whole(&mut self) -> Option<u64>
        ensures { result ≡ option_and_then (λ left. whole_of (first_word_of left.now)) self.old.left }
    {
        whole_of(self.next()?)
    }

    // The next word as a whole number that a length can be.
    pub fn size(&mut self) -> Option<usize>
        ensures { result ≡ option_and_then (λ left. whole_of (first_word_of left.now)) self.old.left }
    {
        usize::try_from(self.whole()?).ok()
    }

    // The next word as a number that a length can be, and `other` where no word is left.
    pub fn size_or(&mut self, other: usize) -> Option<usize>
        ensures { result ≡ (if is_none self.old.left then Some other else option_and_then (λ left. whole_of (first_word_of left.now)) self.old.left) }
    {
        if self.is_empty() {
            Some(other)
        } else {
            self.size()
        }
    }

    // The next word as the bits of a float.
    pub fn float(&mut self) -> Option<f64>
        ensures { result ≡ option_and_then (λ left. option_map (from_bits binary64) (pattern_of (first_word_of left.now))) self.old.left }
    {
        patterns::float_of(self.next()?)
    }

    pub fn is_empty(&self) -> bool
        ensures { result ≡ is_none self.now.left }
    {
        self.left.is_none()
    }
}

impl<'a> Iterator for Words<'a> {
    ghost use Rattle.std.specs.Iterator.{at_most};
    ghost use Rattle.script.specs.Left.{FirstWord, most_left};

    type Item = &'a [u8];

    ghost next_gives = { FirstWord };

    ghost remaining = { λ words. at_most (most_left words) };

    fn next(&mut self) -> Option<&'a [u8]> {
        let (word, left) = split_word(self.left?);
        self.left = left;
        Some(word)
    }
}
