// When the address is to change.
ghost use Rattle.std.specs.Prelude.{◌≡◌};
ghost use Rattle.engine.specs.Calls.{should_rebind_now_of};

use crate::engine::ArrivalEngine;
use numbers::Refusal;

impl ArrivalEngine {
    // Whether the outbound socket is to be changed now, or a refusal by 29, 21 or 25. In place, so that the settings are not copied.
    #[tactic(auto, unfolding(crate::specs::Calls::should_rebind_now_of, crate::specs::Changes::rebound_of, crate::specs::Changes::with_others))]
    pub fn should_rebind_now_in_place(&mut self, now_ms: f64) -> Result<bool, Refusal>
        ensures { (self.new, result) ≡ should_rebind_now_of self.old now_ms }
    {
        self.judge_instant(now_ms)?;
        if now_ms >= self.next_rebind_ms {
            self.rebinds_done += 1;
            self.stats.nat_rebinds = self.rebinds_done;
            self.next_rebind_ms += numbers::float_of(self.cfg.nat_change_every_ms);
            return Ok(true);
        }
        Ok(false)
    }

    // The same on an engine that goes by value.
    pub fn should_rebind_now(mut self, now_ms: f64) -> (Self, Result<bool, Refusal>)
        ensures { result ≡ should_rebind_now_of self now_ms }
    {
        let answer = self.should_rebind_now_in_place(now_ms);
        (self, answer)
    }
}
