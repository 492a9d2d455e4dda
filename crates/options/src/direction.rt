// The settings of one direction.
ghost use Rattle.std.specs.Prelude.{◌≡◌};
ghost use Rattle.options.specs.Directions.{combined_of, direction_of};

use crate::config::DirectionConfig;
use crate::delays::{Delays, delays_of};
use crate::keys::Keys;
use crate::limits::{Limits, limits_of};
use crate::losses::{Losses, losses_of};
use crate::schedules::{Schedules, schedules_of};
use numbers::Refusal;

// The source's settings have no parts, so the four are joined field by field.
#[tactic(auto, unfolding(crate::specs::Directions::combined_of))]
fn combined(a: Losses, b: Delays, c: Limits, d: Schedules) -> DirectionConfig
    ensures { result ≡ combined_of a b c d }
{
    let blackouts = d.blackouts.entries;
    let tcp_kills = d.tcp_kills.entries;
    DirectionConfig {
        loss: a.loss,
        ge: a.ge,
        delay_ms: b.delay_ms,
        jitter_ms: b.jitter_ms,
        reorder_p: b.reorder_p,
        reorder_delay_ms: b.reorder_delay_ms,
        duplicate_p: c.duplicate_p,
        rate_bps: c.rate_bps,
        rate_burst_bytes: c.rate_burst_bytes,
        mtu: c.mtu,
        blackouts,
        blackout_count: d.blackouts.count,
        nat_change_every_ms: d.nat_change_every_ms,
        tcp_kills,
        tcp_kill_count: d.tcp_kills.count,
    }
}

// The settings of the direction that the prefix names.
#[tactic(auto, unfolding(crate::specs::Directions::direction_of))]
pub fn direction_of(keys: Keys) -> Result<DirectionConfig, Refusal>
    ensures { result ≡ direction_of keys.entry.text.now keys.entry.prefix.now }
{
    let losses = losses_of(keys)?;
    let delays = delays_of(keys)?;
    let limits = limits_of(keys)?;
    let schedules = schedules_of(keys)?;
    Ok(combined(losses, delays, limits, schedules))
}
