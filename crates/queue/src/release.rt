// How the least copy leaves.
ghost use Rattle.std.specs.Prelude.{◌≡◌, ◌<◌, ◌≤◌, Some, Ok};
ghost use Rattle.tournament.specs.Trees.{SameTables};
ghost use Rattle.queue.specs.Tables.{after};
ghost use Rattle.queue.specs.Lent.{exit_tables};
ghost use Rattle.queue.specs.Calls.{queued_of, one_less, left_of, release_of};

use crate::answers::Queued;
use crate::queue::ImpairQueue;
use crate::rows::Rows;
use crate::sizes::Sizes;
use numbers::Refusal;
use tournament::{Tree, TreeMut};

// What a slot holds.
fn queued(tree: Tree<'_>, rows: Rows<'_>, slot: u32) -> Queued
    ensures { result ≡ queued_of tree.entry.dues.now tree.entry.seqs.now rows.entry.arrivals.now rows.entry.routes.now rows.entry.copy_ids.now rows.entry.lengths.now slot }
{
    let at = slot as usize;
    Queued {
        due_ms: tree.due(slot),
        seq: tree.seq(slot),
        arrival_ms: tables::get(rows.arrivals, at, 0.0),
        route: tables::get(rows.routes, at, 0),
        copy_id: tables::get(rows.copy_ids, at, 0),
        length: tables::get(rows.lengths, at, 0) as usize,
        slot,
    }
}

impl ImpairQueue {
    // The state with one copy less.
    fn one_less(self) -> ImpairQueue
        requires { 0 < self.held }
        ensures { result ≡ one_less self }
    {
        ImpairQueue {
            held: self.held - 1,
            ..self
        }
    }

    // The copy in a slot leaves.
    #[tactic(auto, unfolding(crate::specs::Calls::left_of))]
    fn release_slot(
        self,
        tree: &mut TreeMut<'_>,
        free: &mut [u32],
        rows: Rows<'_>,
        slot: u32,
    ) -> (ImpairQueue, Queued)
        requires { (0 < self.held) × (self.held ≤ self.opened) }
        ensures released { after (result.0, Ok (Some result.1)) (exit_tables tree.new free.new rows.entry) ≡ left_of self (exit_tables tree.old free.old rows.entry) slot }
        ensures same { SameTables tree.old tree.new }
    {
        let copy = queued(tree.shared(), rows, slot);
        tables::set(free, (self.opened - self.held) as usize, slot);
        tree.leave(self.leaves, slot);
        (self.one_less(), copy)
    }

    // The least copy with a due of at most `now_ms` leaves; none due, or a refusal by 23, 21, 25 or 26.
    #[tactic(auto, unfolding(crate::specs::Calls::release_of, crate::specs::Calls::due_of, crate::specs::Refusals::memory_of))]
    pub fn release(
        self,
        tree: &mut TreeMut<'_>,
        free: &mut [u32],
        rows: Rows<'_>,
        now_ms: f64,
    ) -> (ImpairQueue, Result<Option<Queued>, Refusal>)
        ensures released { after result (exit_tables tree.new free.new rows.entry) ≡ release_of self (exit_tables tree.old free.old rows.entry) now_ms }
        ensures same { SameTables tree.old tree.new }
    {
        let seen = tree.shared();
        let sizes = Sizes::of(seen, free, rows);
        if let Err(refusal) = self.judge_release(sizes, now_ms) {
            return (self, Err(refusal));
        }
        if self.held == 0 {
            return (self, Ok(None));
        }
        let root = tournament::least(seen.win, self.leaves);
        if self.leaves <= root {
            return (self, Err(Refusal::Keeping));
        }
        if seen.due(root) <= now_ms {
            let (state, copy) = self.release_slot(tree, free, rows, root);
            return (state, Ok(Some(copy)));
        }
        (self, Ok(None))
    }
}
