// How an engine starts.
ghost use Rattle.std.specs.Prelude.{◌≡◌};
ghost use Rattle.engine.specs.Engine.{fresh_of, next_rebind_of};
ghost use Rattle.engine.specs.Calls.{new_engine_of};

use crate::engine::ArrivalEngine;
use accounts::DirectionStats;
use draws::Rng;
use numbers::Refusal;
use options::DirectionConfig;

// The instant of the first rebind; without a period it never comes, and the instant is infinite, as in the source.
#[tactic(auto, unfolding(crate::specs::Engine::next_rebind_of))]
fn next_rebind(nat_change_every_ms: u64) -> f64
    ensures { result ≡ next_rebind_of nat_change_every_ms }
{
    if nat_change_every_ms > 0 {
        numbers::float_of(nat_change_every_ms)
    } else {
        f64::INFINITY
    }
}

// A full bucket, a good state and no counts.
fn fresh(cfg: DirectionConfig, seed: u64) -> ArrivalEngine
    ensures { result ≡ fresh_of cfg seed }
{
    let capacity = steps::bucket_capacity(cfg.rate_bps, cfg.rate_burst_bytes);
    ArrivalEngine {
        cfg,
        rng: Rng::new(seed),
        ge_bad: false,
        tokens: numbers::float_of(capacity),
        last_refill_ms: 0.0,
        next_rebind_ms: next_rebind(cfg.nat_change_every_ms),
        rebinds_done: 0,
        stats: DirectionStats::default(),
    }
}

impl ArrivalEngine {
    // A new engine; refused settings give that of the default settings with the generator's seed 0.
    #[tactic(auto, unfolding(crate::specs::Calls::new_engine_of))]
    pub fn new(cfg: DirectionConfig, seed: u64) -> (Self, Result<(), Refusal>)
        ensures { result ≡ new_engine_of cfg seed }
    {
        if !judgement::is_settings(&cfg) {
            let idle = fresh(DirectionConfig::default(), 0);
            return (idle, Err(Refusal::Settings));
        }
        (fresh(cfg, seed), Ok(()))
    }
}
