// The colons that part a value.
ghost use Rattle.std.specs.Prelude.{◌≡◌};
ghost use Rattle.std.specs.Option.{option_map};
ghost use Rattle.values.specs.Parts.{colons_of};

use crate::bytes::split_once;

// The parts of a value that has exactly three.
pub fn three_parts(v: &[u8]) -> Option<(&[u8], &[u8], &[u8])>
    ensures { option_map (λ p. (p.0.now, p.1.now, p.2.now)) result ≡ colons_of v.now }
{
    let (first, rest) = split_once(v, b':')?;
    let (second, third) = split_once(rest, b':')?;
    if third.contains(&b':') {
        return None;
    }
    Some((first, second, third))
}
