// What a full queue turned away.
ghost use Rattle.std.specs.Prelude.{◌≡◌};
ghost use Rattle.engine.specs.Calls.{stats_inc_overflow_of};

use crate::engine::ArrivalEngine;
use numbers::Refusal;

impl ArrivalEngine {
    // Counts the copy.
    #[tactic(auto, unfolding(crate::specs::Calls::stats_inc_overflow_of, crate::specs::Changes::with_overflow, crate::specs::Changes::with_others, crate::specs::Refusals::judged_given_of, numbers::specs::Checks::first_refusal, numbers::specs::Checks::check_of))]
    fn overflowed(&mut self) -> Result<(), Refusal>
        ensures { (self.new, result) ≡ stats_inc_overflow_of self.old }
    {
        self.judge_settings()?;
        self.judge_counters()?;
        self.stats.dropped_overflow += 1;
        Ok(())
    }

    // One copy more that a full queue turned away, or a refusal by 29 or 25.
    pub fn stats_inc_overflow(mut self) -> (Self, Result<(), Refusal>)
        ensures { result ≡ stats_inc_overflow_of self }
    {
        let answer = self.overflowed();
        (self, answer)
    }
}
