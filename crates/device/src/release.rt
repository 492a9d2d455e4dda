// How the least copy leaves.
ghost use Rattle.std.specs.Prelude.{◌≡◌};
ghost use Rattle.tournament.specs.Trees.{SameTables};
ghost use Rattle.queue.specs.Lent.{exit_tables};
ghost use Rattle.queue.specs.Tables.{after};
ghost use Rattle.device.specs.Release.{sending_by, release_of};

use crate::device::Device;
use numbers::{Refusal, check};
use queue::{Queued, Rows, Sizes, TreeMut};

impl Device {
    // What comes once the queue has answered: the copy is accounted with its latency. A queue that refuses was altered, and so was a length above the width.
    #[tactic(auto, unfolding(crate::specs::Release::sending_by, crate::specs::Release::accounted_of, crate::specs::Release::send_answer_of, numbers::specs::Checks::check_of))]
    fn send(
        &mut self,
        released: Result<Option<Queued>, Refusal>,
        now_ms: f64,
    ) -> Result<Option<Queued>, Refusal>
        ensures { (self.new, result) ≡ sending_by released self.old now_ms }
    {
        let Some(copy) = released.map_err(|_| Refusal::Keeping)? else {
            return Ok(None);
        };
        check(copy.length <= self.queue.width as usize, Refusal::Keeping)?;
        let (accounts, sent) = self.accounts.on_send(copy.length, now_ms - copy.arrival_ms);
        self.accounts = accounts;
        sent.map(|()| Some(copy)).map_err(|_| Refusal::Keeping)
    }

    // The least copy with a due of at most `now_ms` leaves and is accounted; none due, or a refusal by 23, 21, 25 or 26. In place, so that the settings are not
    // copied.
    #[tactic(auto, unfolding(crate::specs::Release::release_of, queue::specs::Refusals::memory_of, crate::specs::Refusals::call_refusal, numbers::specs::Checks::first_refusal, numbers::specs::Checks::check_of))]
    pub fn release_in_place(
        &mut self,
        tree: &mut TreeMut<'_>,
        free: &mut [u32],
        rows: Rows<'_>,
        now_ms: f64,
    ) -> Result<Option<Queued>, Refusal>
        ensures released { after (self.new, result) (exit_tables tree.new free.new rows.entry) ≡ release_of self.old (exit_tables tree.old free.old rows.entry) now_ms }
        ensures same { SameTables tree.old tree.new }
    {
        let memory = self.queue.has_memory(Sizes::of(tree.shared(), free, rows));
        check(memory, Refusal::Memory)?;
        check(numbers::is_instant(now_ms), Refusal::Instant)?;
        self.judge_counters()?;
        let (queue, released) = self.queue.release(tree, free, rows, now_ms);
        self.queue = queue;
        self.send(released, now_ms)
    }

    // The same on a device that goes by value.
    pub fn release(
        mut self,
        tree: &mut TreeMut<'_>,
        free: &mut [u32],
        rows: Rows<'_>,
        now_ms: f64,
    ) -> (Device, Result<Option<Queued>, Refusal>)
        ensures released { after result (exit_tables tree.new free.new rows.entry) ≡ release_of self (exit_tables tree.old free.old rows.entry) now_ms }
        ensures same { SameTables tree.old tree.new }
    {
        let answer = self.release_in_place(tree, free, rows, now_ms);
        (self, answer)
    }
}
