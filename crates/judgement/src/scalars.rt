// The settings of a direction beside its lists.
ghost use Rattle.std.specs.Prelude.{◌≡◌};
ghost use Rattle.judgement.specs.Scalars.{are_scalars_of};

use crate::setting::{is_bounded, is_ge, is_limit, is_probability, is_time};
use options::DirectionConfig;

// Whether refusal 29 lets all of them through. Joined by `&`: with `&&` the proof closes only by hand, test by test.
pub fn are_scalars(cfg: &DirectionConfig) -> bool
    ensures { result ≡ are_scalars_of cfg.now }
{
    is_probability(cfg.loss)
        & is_ge(cfg.ge)
        & is_time(cfg.delay_ms)
        & is_time(cfg.jitter_ms)
        & is_probability(cfg.reorder_p)
        & is_time(cfg.reorder_delay_ms)
        & is_probability(cfg.duplicate_p)
        & is_limit(cfg.rate_bps)
        & is_bounded(cfg.rate_burst_bytes)
        & is_limit(cfg.mtu.map(|most| most as u64))
        & is_bounded(cfg.nat_change_every_ms)
}
