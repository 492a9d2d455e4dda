ghost use Rattle.std.specs.Prelude.{◌≡◌};
ghost use Rattle.accounts.specs.Buckets.{bucket_index_of};

// How many bounds there are between buckets.
const N_BOUNDS: usize = 11;

// How many buckets a histogram has: one below each bound, and one for the rest.
pub(crate) const N_BUCKETS: usize = N_BOUNDS + 1;

// The bound above each bucket but the last, in milliseconds.
const BUCKET_BOUNDS_MS: [f64; N_BOUNDS] = [
    1.0, 2.0, 5.0, 10.0, 20.0, 50.0, 100.0, 200.0, 500.0, 1000.0, 5000.0,
];

// The bucket of a latency: the first whose bound is above it, and the last for NaN and 5000 or more.
pub fn bucket_index(latency_ms: f64) -> usize
    ensures { result ≡ bucket_index_of latency_ms }
{
    BUCKET_BOUNDS_MS
        .iter()
        .position(|bound| latency_ms < *bound)
        .unwrap_or(N_BOUNDS)
}
