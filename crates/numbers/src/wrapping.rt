ghost use Rattle.std.specs.Prelude.{◌≡◌};
ghost use Rattle.numbers.specs.Wrapping.{wrapping_mul_of};

// The product of a and b modulo 2^64. It stands beside std's method, since document 01 names this helper.
pub fn wrapping_mul(a: u64, b: u64) -> u64
    ensures { result ≡ wrapping_mul_of a b }
{
    a.wrapping_mul(b)
}
