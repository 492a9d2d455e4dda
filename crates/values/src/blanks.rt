// Blanks around a window's bounds.
ghost use Rattle.std.specs.Prelude.{◌≡◌, drop};
ghost use Rattle.values.specs.Blanks.{is_blank, blanks, trim_end, trimmed};

fn is_blank(b: u8) -> bool
    ensures { result ≡ is_blank b }
{
    matches!(b, b' ' | 9..=13)
}

// The bytes without the blanks in front.
fn trim_start(s: &[u8]) -> &[u8]
    ensures { result.now ≡ drop (blanks s.now) s.now }
{
    let mut left = s;
    while let Some((first, rest)) = left.split_first() {
        if !is_blank(*first) {
            break;
        }
        left = rest;
    }
    left
}

// The bytes without the blanks at the end. Apart from `trim_start`, since each end has a clause of its own and one function would take the split as a closure.
fn trim_end(s: &[u8]) -> &[u8]
    ensures { result.now ≡ trim_end s.now }
{
    let mut left = s;
    while let Some((last, rest)) = left.split_last() {
        if !is_blank(*last) {
            break;
        }
        left = rest;
    }
    left
}

// The bytes without the blanks around them. By hand, since std's `trim_ascii` leaves the byte 11.
pub fn trim(s: &[u8]) -> &[u8]
    ensures { result.now ≡ trimmed s.now }
{
    trim_end(trim_start(s))
}
