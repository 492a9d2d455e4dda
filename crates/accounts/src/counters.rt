ghost use Rattle.std.specs.Prelude.{◌≡◌};
ghost use Rattle.accounts.specs.Bits.{bits_from};

use crate::buckets::N_BUCKETS;

// The bits of all counters of a histogram together.
pub(crate) fn counter_bits(hist: &[u64; N_BUCKETS]) -> u64
    ensures { result ≡ bits_from 0 hist.now }
{
    hist.iter().fold(0, |bits, counter| bits | counter)
}
