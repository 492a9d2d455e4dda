ghost use Rattle.std.specs.Prelude.{◌≡◌};
ghost use Rattle.judgement.specs.Settings.{is_settings_of};

use crate::lists::{are_blackouts, are_tcp_kills};
use crate::scalars::are_scalars;
use options::DirectionConfig;

// Whether refusal 29 lets the settings of a direction through.
#[tactic(auto, unfolding(crate::specs::Settings::is_settings_of))]
pub fn is_settings(cfg: &DirectionConfig) -> bool
    ensures { result ≡ is_settings_of cfg.now }
{
    are_scalars(cfg) && are_blackouts(cfg) && are_tcp_kills(cfg)
}
