use accounts::DirectionStats;
use draws::Rng;
use options::DirectionConfig;

// The settings of a direction, what the arrivals so far have left, and their counts. Document 01 gives calls on it this form: it goes in by value and comes back
// beside the answer. Each call that changes it stands over one in place, which copies no settings.
#[derive(Clone, Copy)]
pub struct ArrivalEngine {
    pub cfg: DirectionConfig,
    pub rng: Rng,
    pub ge_bad: bool,
    pub tokens: f64,
    pub last_refill_ms: f64,
    pub next_rebind_ms: f64,
    pub rebinds_done: u64,
    pub stats: DirectionStats,
}
