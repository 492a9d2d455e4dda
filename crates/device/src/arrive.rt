// How a packet arrives.
ghost use Rattle.std.specs.Prelude.{◌≡◌, ◌+◌, ◌<◌, ◌^◌};
ghost use Rattle.tournament.specs.Trees.{SameTables};
ghost use Rattle.queue.specs.Lent.{entry_tables, SameRows};
ghost use Rattle.queue.specs.Tables.{after};
ghost use Rattle.device.specs.Arrive.{counted_of, arrive_refusal, arrive_of};

use crate::device::Device;
use admission::Admitted;
use numbers::{Refusal, check};
use queue::{RowsMut, Sizes, TreeMut};
use steps::Decision;

// The decision, and the numbers of copies entered, overflowed and torn.
#[derive(Clone, Copy)]
pub struct Arrived {
    pub decision: Decision,
    pub entered: u64,
    pub overflowed: u64,
    pub torn: u64,
}

impl Device {
    // Refuses an arrival by 23, 21, 22 or 25. A packet may not be longer than a slot; that none is too long for the engine is tested beside it, since the width may
    // have been altered.
    #[tactic(auto, unfolding(queue::specs::Refusals::memory_of, crate::specs::Refusals::call_refusal, numbers::specs::Checks::first_refusal, numbers::specs::Checks::check_of))]
    fn judge_arrival(
        &self,
        tree: &TreeMut<'_>,
        free: &[u32],
        rows: &RowsMut<'_>,
        now_ms: f64,
        len: usize,
    ) -> Result<(), Refusal>
        ensures { result ≡ arrive_refusal self.now (entry_tables tree.now free.now rows.now) now_ms len }
    {
        let memory = self
            .queue
            .has_memory(Sizes::of(tree.shared(), free, rows.shared()));
        check(memory, Refusal::Memory)?;
        check(numbers::is_instant(now_ms), Refusal::Instant)?;
        let short = (len <= self.queue.width as usize) & numbers::is_length(len);
        check(short, Refusal::Length)?;
        self.judge_counters()
    }

    // Counts what an arrival did to the queue.
    #[tactic(auto, unfolding(crate::specs::Arrive::counted_of, engine::specs::Changes::with_overflow, engine::specs::Changes::with_others, accounts::specs::Accountant::resets_of))]
    fn count(&mut self, admitted: Admitted)
        requires overflowed_bound { self.old.engine.stats.dropped_overflow + admitted.overflowed < 2 ^ 64 }
        requires resets_bound { self.old.accounts.tcp_rst_kills + admitted.resets < 2 ^ 64 }
        requires torn_bound { self.old.torn + admitted.torn < 2 ^ 64 }
        ensures { self.new ≡ counted_of self.old admitted }
    {
        self.engine.stats.dropped_overflow += admitted.overflowed;
        self.accounts.tcp_rst_kills += admitted.resets;
        self.torn += admitted.torn;
    }

    // A packet arrives: it is dropped, its copies enter or overflow, or all held copies are torn; or a refusal by 23, 21, 22, 25 or 26. In place, so that the
    // settings are not copied. Document 01 gives the call its instant, bytes and route; of what is lent, tree and rows are written and `free` is only read.
    #[tactic(auto, unfolding(crate::specs::Arrive::arrive_of))]
    pub fn arrive_in_place(
        &mut self,
        tree: &mut TreeMut<'_>,
        free: &[u32],
        rows: &mut RowsMut<'_>,
        now_ms: f64,
        bytes: &[u8],
        route: u64,
    ) -> Result<Arrived, Refusal>
        ensures arrived { after (self.new, result) (entry_tables tree.new free.now rows.new) ≡ arrive_of self.old (entry_tables tree.old free.now rows.old) now_ms bytes.now route }
        ensures same { SameTables tree.old tree.new × SameRows rows.old rows.new }
    {
        self.judge_arrival(tree, free, rows, now_ms, bytes.len())?;
        let decision = self.engine.decide_in_place(now_ms, bytes.len())?;
        let (queue, followed) = admission::follow(
            self.queue, tree, free, rows, decision, now_ms, route, bytes,
        );
        self.queue = queue;
        let admitted = followed?;
        self.count(admitted);
        Ok(Arrived {
            decision,
            entered: admitted.entered,
            overflowed: admitted.overflowed,
            torn: admitted.torn,
        })
    }

    // The same on a device that goes by value.
    pub fn arrive(
        mut self,
        tree: &mut TreeMut<'_>,
        free: &[u32],
        rows: &mut RowsMut<'_>,
        now_ms: f64,
        bytes: &[u8],
        route: u64,
    ) -> (Device, Result<Arrived, Refusal>)
        ensures arrived { after result (entry_tables tree.new free.now rows.new) ≡ arrive_of self (entry_tables tree.old free.now rows.old) now_ms bytes.now route }
        ensures same { SameTables tree.old tree.new × SameRows rows.old rows.new }
    {
        let answer = self.arrive_in_place(tree, free, rows, now_ms, bytes, route);
        (self, answer)
    }
}
