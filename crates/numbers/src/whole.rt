ghost use Rattle.std.specs.Prelude.{◌≡◌};
ghost use Rattle.numbers.specs.Whole.{whole};

use crate::limits::MAX_EXACT;

// The float of a whole number: exact up to 2^53, where a plain conversion does it, and the nearest one above. Two ways, since with the library's rounding alone
// asking 100 windows took more than twice as long (docs/BENCHMARKS.md).
pub fn float_of(n: u64) -> f64
    ensures { result ≡ whole n }
{
    if n <= MAX_EXACT {
        n as f64
    } else {
        std::num::nearest_u64_to_f64(n)
    }
}
