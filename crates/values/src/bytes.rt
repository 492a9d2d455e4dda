// Parts of a list of bytes, and where a byte stands.
ghost use Rattle.std.specs.Prelude.{◌≡◌, ◌==◌, take, drop, position};
ghost use Rattle.std.specs.Option.{option_map};
ghost use Rattle.values.specs.Bytes.{up_to, before_first, behind_first, split_once};

// The bytes from `from` on; none where it is past the end. It and `front` stand over `get`, since a count may be past the end: one then gives nothing, and the
// other all.
pub fn after(s: &[u8], from: usize) -> &[u8]
    ensures { result.now ≡ drop from s.now }
{
    s.get(from..).unwrap_or(&[])
}

// The first n, or all where there are fewer.
pub fn front<T>(s: &[T], n: usize) -> &[T]
    ensures { result.now ≡ take n s.now }
{
    s.get(..n).unwrap_or(s)
}

// The len bytes from `from` on, or fewer where they end before.
pub fn part(s: &[u8], from: usize, len: usize) -> &[u8]
    ensures { result.now ≡ take len (drop from s.now) }
{
    front(after(s, from), len)
}

// Where the first b stands.
fn place_of(s: &[u8], b: u8) -> Option<usize>
    ensures { result ≡ position (λ x. x == b) s.now }
{
    s.iter().position(|x| *x == b)
}

// How many bytes stand before the first b.
pub fn up_to(s: &[u8], b: u8) -> usize
    ensures { result ≡ up_to b s.now }
{
    place_of(s, b).unwrap_or(s.len())
}

// What stands before the first b and behind it, where there is one.
pub fn split_once(s: &[u8], b: u8) -> Option<(&[u8], &[u8])>
    ensures { option_map (λ p. (p.0.now, p.1.now)) result ≡ split_once b s.now }
{
    let at = place_of(s, b)?;
    Some((&s[..at], &s[at + 1..]))
}

// What stands before the first b, or all where there is none.
pub fn before_first(s: &[u8], b: u8) -> &[u8]
    ensures { result.now ≡ before_first b s.now }
{
    front(s, up_to(s, b))
}

// What stands behind the first b; nothing where there is none.
pub fn behind_first(s: &[u8], b: u8) -> &[u8]
    ensures { result.now ≡ behind_first b s.now }
{
    split_once(s, b).map_or(&[], |parts| parts.1)
}
