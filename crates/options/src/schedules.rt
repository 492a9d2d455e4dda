// The options of a direction that name times.
// Values are read by closures, since a free function of another crate has no proof where it is passed by its name.
ghost use Rattle.std.specs.Prelude.{◌≡◌};
ghost use Rattle.options.specs.Directions.{schedules_of};

use crate::keys::Keys;
use numbers::Refusal;
use settings::{Entries, TcpKill, Window};
use values::parse_positive;

#[derive(Clone, Copy)]
pub struct Schedules {
    pub blackouts: Entries<Window>,
    pub nat_change_every_ms: u64,
    pub tcp_kills: Entries<TcpKill>,
}

#[tactic(auto, unfolding(crate::specs::Directions::schedules_of))]
pub fn schedules_of(keys: Keys) -> Result<Schedules, Refusal>
    ensures { result ≡ schedules_of keys.entry.text.now keys.entry.prefix.now }
{
    let blackouts = keys.entries(b"blackout")?;
    let nat_change_every_ms = keys
        .last(b"nat-change-every-ms")
        .map_or(Ok(0), |v| parse_positive(v))?;
    let tcp_kills = keys.entries(b"kill")?;
    Ok(Schedules {
        blackouts,
        nat_change_every_ms,
        tcp_kills,
    })
}
