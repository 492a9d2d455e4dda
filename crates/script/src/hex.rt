// Text in lower-case hexadecimal digits, two to a byte.
ghost use Rattle.std.specs.Prelude.{◌≡◌, ◌<◌, IfOk, IfSome, length, option_map, take, vec_items};
ghost use Rattle.script.specs.Hex.{digit_of, pair_of, decode_of};

use std::alloc::{AllocError, Global};

// The value of a digit.
pub(crate) fn digit(byte: u8) -> Option<u8>
    ensures value { result ≡ digit_of byte }
    ensures small { IfSome result (λ d. d < 16) }
{
    match byte {
        b'0'..=b'9' => Some(byte - b'0'),
        b'a'..=b'f' => Some(byte - b'a' + 10),
        _ => None,
    }
}

// The byte that two digits stand for.
fn pair(high: u8, low: u8) -> Option<u8>
    ensures { result ≡ pair_of high low }
{
    Some(digit(high)? * 16 + digit(low)?)
}

// The bytes that the digits stand for, where they are whole pairs of digits.
#[tactic(auto, using(crate::proofs::Reading::goes), unfolding(crate::specs::Hex::decode_from))]
pub fn decode(alloc: Global, digits: &[u8]) -> Result<Option<Vec<u8>>, AllocError>
    ensures { IfOk result (λ text. option_map vec_items text ≡ decode_of digits.now) }
{
    let mut text = Vec::new(alloc);
    let mut rest = digits;
    while let [high, low, behind @ ..] = rest {
        let Some(byte) = pair(*high, *low) else {
            return Ok(None);
        };
        text.push(byte)?;
        rest = behind;
    }
    Ok(rest.is_empty().then_some(text))
}

// Puts the bytes that the digits stand for into `text`, as many as it has room for, and gives them, where the digits are whole pairs of digits.
#[tactic(auto, unfolding(crate::specs::Hex::decode_from))]
pub fn decode_into<'a>(digits: &[u8], text: &'a mut [u8]) -> Option<&'a [u8]>
    ensures { option_map (λ part. part.now) result ≡ option_map (take (length text.old)) (decode_of digits.now) }
{
    let mut count = 0;
    let mut rest = digits;
    while let [high, low, behind @ ..] = rest {
        let Some(byte) = pair(*high, *low) else {
            return None;
        };
        if count < text.len() {
            text[count] = byte;
            count += 1;
        }
        rest = behind;
    }
    if rest.is_empty() {
        Some(&text[..count])
    } else {
        None
    }
}
