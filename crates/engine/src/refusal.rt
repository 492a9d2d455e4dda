// Which refusal meets a call.
ghost use Rattle.std.specs.Prelude.{◌≡◌, OnOk};
ghost use Rattle.numbers.specs.Checks.{check_of};
ghost use Rattle.numbers.specs.declared.refusal.Refusal.TheVariants.{Settings, Counter};
ghost use Rattle.judgement.specs.Settings.{is_settings_of};
ghost use Rattle.engine.specs.Refusals.{counters_pass, instant_refusal};
ghost use Rattle.engine.specs.Laws.Refusals.{Counted};

use crate::engine::ArrivalEngine;
use numbers::{Refusal, check};

impl ArrivalEngine {
    // Whether refusal 25 lets the counters through.
    fn in_range(&self) -> bool
        ensures { result ≡ counters_pass self.now }
    {
        numbers::is_counter(self.rebinds_done) & self.stats.in_range()
    }

    // Refuses a call by 25, after the tests of what is handed in.
    pub(crate) fn judge_counters(&self) -> Result<(), Refusal>
        ensures refusal { result ≡ check_of (counters_pass self.now) Counter }
        ensures counted { OnOk result (Counted self.now) }
    {
        check(self.in_range(), Refusal::Counter)
    }

    // Refuses a call by 29.
    pub(crate) fn judge_settings(&self) -> Result<(), Refusal>
        ensures { result ≡ check_of (is_settings_of self.now.cfg) Settings }
    {
        check(judgement::is_settings(&self.cfg), Refusal::Settings)
    }

    // Refuses a call that has an instant, by 29, 21 or 25.
    #[tactic(auto, unfolding(crate::specs::Refusals::judged_given_of, numbers::specs::Checks::first_refusal, numbers::specs::Checks::check_of))]
    pub(crate) fn judge_instant(&self, now_ms: f64) -> Result<(), Refusal>
        ensures refusal { result ≡ instant_refusal self.now now_ms }
        ensures counted { OnOk result (Counted self.now) }
    {
        self.judge_settings()?;
        check(numbers::is_instant(now_ms), Refusal::Instant)?;
        self.judge_counters()
    }
}
