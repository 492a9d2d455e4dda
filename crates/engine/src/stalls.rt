// What a TCP host asks before it reads: whether to reset, or to hold bytes back.
ghost use Rattle.std.specs.Prelude.{◌≡◌};
ghost use Rattle.engine.specs.Calls.{rst_now_of, hold_now_of};

use crate::engine::ArrivalEngine;
use crate::windows::{blackout_at, kill_at};
use numbers::Refusal;
use settings::KillStyle;

impl ArrivalEngine {
    // Whether a kill that resets holds the instant, or a refusal by 29, 21 or 25.
    #[tactic(auto, unfolding(crate::specs::Calls::rst_now_of, steps::specs::Gate::is_rst_of))]
    pub fn rst_now(&self, now_ms: f64) -> Result<bool, Refusal>
        ensures { result ≡ rst_now_of self.now now_ms }
    {
        self.judge_instant(now_ms)?;
        Ok(kill_at(&self.cfg, KillStyle::Rst, now_ms))
    }

    // Whether a kill that holds, or a blackout, holds the instant, or a refusal by 29, 21 or 25.
    #[tactic(auto, unfolding(crate::specs::Calls::hold_now_of, steps::specs::Gate::is_rst_of))]
    pub fn hold_now(&self, now_ms: f64) -> Result<bool, Refusal>
        ensures { result ≡ hold_now_of self.now now_ms }
    {
        self.judge_instant(now_ms)?;
        Ok(kill_at(&self.cfg, KillStyle::Hold, now_ms) | blackout_at(&self.cfg, now_ms))
    }
}
