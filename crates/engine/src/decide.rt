// The decision about one arrival.
ghost use Rattle.std.specs.Prelude.{◌≡◌, ◌≤◌};
ghost use Rattle.numbers.specs.Limits.{max_length};
ghost use Rattle.accounts.specs.Laws.Small.{SmallStats};
ghost use Rattle.engine.specs.Decide.{decide_passed_of};
ghost use Rattle.engine.specs.Calls.{decide_of, decide_unchecked_of};

use crate::counts::count;
use crate::engine::ArrivalEngine;
use crate::windows::gate_at;
use numbers::{Refusal, check};
use steps::{ArrivalState, Decision};

impl ArrivalEngine {
    // What a decision left, with the settings from before it: they are the same, and the compiler then leaves most of their copies out.
    fn with_changes(self, after: ArrivalEngine) -> ArrivalEngine
        requires { after.cfg ≡ self.cfg }
        ensures { result ≡ after }
    {
        ArrivalEngine {
            cfg: self.cfg,
            ..after
        }
    }

    // All steps of an arrival that no refusal met.
    #[tactic(auto, unfolding(crate::specs::Decide::decide_passed_of, crate::specs::Decide::after_of, crate::specs::Engine::state_of))]
    fn decide_passed(&mut self, now_ms: f64, len: usize) -> Decision
        requires counters { SmallStats self.old.stats }
        requires length { len ≤ max_length }
        ensures decided { (self.new, result) ≡ decide_passed_of self.old now_ms len }
        ensures kept { self.new.cfg ≡ self.old.cfg }
    {
        let gate = gate_at(&self.cfg, now_ms);
        let before = ArrivalState {
            rng: self.rng,
            ge_bad: self.ge_bad,
            tokens: self.tokens,
            last_refill_ms: self.last_refill_ms,
        };
        let arrival = steps::arrived(gate, &self.cfg, before, now_ms, len);
        let after = arrival.state;
        self.rng = after.rng;
        self.ge_bad = after.ge_bad;
        self.tokens = after.tokens;
        self.last_refill_ms = after.last_refill_ms;
        count(&mut self.stats, len, arrival);
        arrival.decision
    }

    // Drops the packet, enqueues it or resets its connection, or refuses by 21, 22 or 25, for an engine whose settings were judged when it was made. In place, for
    // a device, whose settings are too long to be copied with each arrival.
    #[tactic(auto, unfolding(crate::specs::Calls::decide_given_of, crate::specs::Refusals::judged_given_of, numbers::specs::Checks::first_refusal, numbers::specs::Checks::check_of))]
    pub fn decide_in_place(&mut self, now_ms: f64, len: usize) -> Result<Decision, Refusal>
        ensures decided { (self.new, result) ≡ decide_unchecked_of self.old now_ms len }
        ensures kept { self.new.cfg ≡ self.old.cfg }
    {
        check(numbers::is_instant(now_ms), Refusal::Instant)?;
        check(numbers::is_length(len), Refusal::Length)?;
        self.judge_counters()?;
        Ok(self.decide_passed(now_ms, len))
    }

    // The same on an engine that goes by value.
    pub fn decide_unchecked(self, now_ms: f64, len: usize) -> (Self, Result<Decision, Refusal>)
        ensures { result ≡ decide_unchecked_of self now_ms len }
    {
        let mut after = self;
        let answer = after.decide_in_place(now_ms, len);
        (self.with_changes(after), answer)
    }

    // The same in place, with the settings judged by 29 first.
    #[tactic(auto, unfolding(crate::specs::Calls::decide_given_of, crate::specs::Refusals::judged_given_of, numbers::specs::Checks::first_refusal, numbers::specs::Checks::check_of))]
    pub fn decide_judged_in_place(&mut self, now_ms: f64, len: usize) -> Result<Decision, Refusal>
        ensures decided { (self.new, result) ≡ decide_of self.old now_ms len }
        ensures kept { self.new.cfg ≡ self.old.cfg }
    {
        self.judge_settings()?;
        self.decide_in_place(now_ms, len)
    }

    // The same on an engine that goes by value.
    pub fn decide(self, now_ms: f64, len: usize) -> (Self, Result<Decision, Refusal>)
        ensures { result ≡ decide_of self now_ms len }
    {
        let mut after = self;
        let answer = after.decide_judged_in_place(now_ms, len);
        (self.with_changes(after), answer)
    }
}
