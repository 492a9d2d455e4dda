// Digits as a whole number.
ghost use Rattle.std.specs.Prelude.{◌≡◌, [], ◌∷◌};
ghost use Rattle.values.specs.Whole.{digits_from, without_plus};

use numbers::Refusal;

// The number read on by one digit.
#[tactic(auto, unfolding(crate::specs::Whole::digits_from))]
fn digit_from(b: u8, n: u64) -> Result<u64, Refusal>
    ensures { result ≡ digits_from n (b ∷ []) }
{
    if !b.is_ascii_digit() {
        return Err(Refusal::Whole);
    }
    n.checked_mul(10)
        .and_then(|tens| tens.checked_add(u64::from(b - b'0')))
        .ok_or(Refusal::Whole)
}

// The digits of s read on from n; refused where a byte is no digit or the number reaches 2^64. By hand, since a value is bytes and no text, and the digits behind
// a point are read on from those before it.
pub fn digits_from(s: &[u8], n: u64) -> Result<u64, Refusal>
    ensures { result ≡ digits_from n s.now }
{
    let mut value = n;
    for b in s {
        value = digit_from(*b, value)?;
    }
    Ok(value)
}

// The bytes without one leading plus sign.
pub fn without_plus(v: &[u8]) -> &[u8]
    ensures { result.now ≡ without_plus v.now }
{
    v.strip_prefix(b"+").unwrap_or(v)
}
