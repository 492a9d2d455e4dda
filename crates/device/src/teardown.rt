// How all held copies are torn.
ghost use Rattle.std.specs.Prelude.{◌≡◌};
ghost use Rattle.device.specs.Others.{teardown_of};

use crate::device::Device;
use numbers::Refusal;

impl Device {
    // All held copies go to torn, and their number is told; or a refusal by 25, or by 26: a queue that refuses was altered. In place, so that the settings are
    // not copied.
    #[tactic(auto, unfolding(crate::specs::Others::teardown_of, crate::specs::Others::torn_by, crate::specs::Refusals::call_refusal, numbers::specs::Checks::first_refusal, numbers::specs::Checks::check_of))]
    pub fn teardown_in_place(&mut self) -> Result<u64, Refusal>
        ensures { (self.new, result) ≡ teardown_of self.old }
    {
        self.judge_counters()?;
        let (after, drained) = self.queue.drain();
        self.queue = after;
        match drained {
            Ok(copies) => {
                self.torn += copies as u64;
                Ok(copies as u64)
            }
            Err(_) => Err(Refusal::Keeping),
        }
    }

    // The same on a device that goes by value.
    pub fn teardown(mut self) -> (Device, Result<u64, Refusal>)
        ensures { result ≡ teardown_of self }
    {
        let answer = self.teardown_in_place();
        (self, answer)
    }
}
