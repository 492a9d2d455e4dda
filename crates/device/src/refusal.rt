// Which refusal meets a call.
ghost use Rattle.std.specs.Prelude.{◌≡◌};
ghost use Rattle.numbers.specs.Checks.{check_of};
ghost use Rattle.numbers.specs.declared.refusal.Refusal.TheVariants.{Counter};
ghost use Rattle.machine.specs.Machine.{in_range};

use crate::device::Device;
use numbers::{Refusal, check};

impl Device {
    // Whether refusal 25 lets every counter, torn and the next seq through.
    #[tactic(auto, unfolding(machine::specs::Machine::in_range))]
    fn in_range(&self) -> bool
        ensures { result ≡ in_range self.now.engine self.now.accounts self.now.torn self.now.queue.next_seq }
    {
        (numbers::is_counter(self.engine.rebinds_done) & self.engine.stats.in_range())
            & self.accounts.in_range()
            & numbers::is_counter(self.torn)
            & numbers::is_counter(self.queue.next_seq)
    }

    // Refuses a call by 25, after the tests of what is handed in.
    pub(crate) fn judge_counters(&self) -> Result<(), Refusal>
        ensures { result ≡ check_of (in_range self.now.engine self.now.accounts self.now.torn self.now.queue.next_seq) Counter }
    {
        check(self.in_range(), Refusal::Counter)
    }
}
