// Reads and writes of a table.
ghost use Rattle.std.specs.Prelude.{◌≡◌, get_or, set};

// What stands at an index, and `other` past the end.
pub fn get<T: Copy>(table: &[T], i: usize, other: T) -> T
    ensures { result ≡ get_or table.now i other }
{
    table.get(i).copied().unwrap_or(other)
}

// The value at an index becomes `v`. Nothing changes past the end. By a test, since the proof does not close with `get_mut`.
pub fn set<T: Copy>(table: &mut [T], i: usize, v: T)
    ensures { table.new ≡ set table.old i v }
{
    if i < table.len() {
        table[i] = v;
    }
}
