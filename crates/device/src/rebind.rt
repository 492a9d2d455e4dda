// When the address is to change.
ghost use Rattle.std.specs.Prelude.{◌≡◌};
ghost use Rattle.device.specs.Others.{rebind_of};

use crate::device::Device;
use numbers::{Refusal, check};

impl Device {
    // Whether the outbound socket is to be changed now, or a refusal by 21, 25 or 26: settings that the engine refuses were altered. In place, so that the
    // settings are not copied.
    #[tactic(auto, unfolding(crate::specs::Others::rebind_of, crate::specs::Others::rebound_by, crate::specs::Refusals::call_refusal, numbers::specs::Checks::first_refusal, numbers::specs::Checks::check_of))]
    pub fn rebind_in_place(&mut self, now_ms: f64) -> Result<bool, Refusal>
        ensures { (self.new, result) ≡ rebind_of self.old now_ms }
    {
        check(numbers::is_instant(now_ms), Refusal::Instant)?;
        self.judge_counters()?;
        let rebound = self.engine.should_rebind_now_in_place(now_ms);
        rebound.map_err(|_| Refusal::Keeping)
    }

    // The same on a device that goes by value.
    pub fn rebind(mut self, now_ms: f64) -> (Device, Result<bool, Refusal>)
        ensures { result ≡ rebind_of self now_ms }
    {
        let answer = self.rebind_in_place(now_ms);
        (self, answer)
    }
}
