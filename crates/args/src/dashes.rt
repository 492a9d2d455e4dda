// The dashes in front of a key.
ghost use Rattle.std.specs.Prelude.{◌≡◌};
ghost use Rattle.args.specs.Arguments.{stripped};

// The key without the `--` pairs at the front.
pub fn stripped(k: &[u8]) -> &[u8]
    ensures { result.now ≡ stripped k.now }
{
    let mut left = k;
    while let Some(rest) = left.strip_prefix(b"--") {
        left = rest;
    }
    left
}
