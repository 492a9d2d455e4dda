// What the queue asks of the tree.
ghost use Rattle.std.specs.Prelude.{◌≡◌, ◌<◌, ◌≤◌};
ghost use Rattle.numbers.specs.Limits.{max_capacity};
ghost use Rattle.tournament.specs.Trees.{tree_in, SameTables};
ghost use Rattle.tournament.specs.Calls.{enter_of, leave_of, least_of, fits_of, placed_of};

use crate::growth::{FREE_DUE, FREE_SEQ};
use crate::nodes;
use crate::tree::TreeMut;
use numbers::MAX_CAPACITY;

// Whether a slot can enter: it has a leaf, or is the first that has none and is below the capacity.
#[tactic(auto, unfolding(crate::specs::Calls::fits_of))]
pub fn fits(cap: u32, leaves: u32, slot: u32) -> bool
    ensures { result ≡ fits_of cap leaves slot }
{
    (cap <= MAX_CAPACITY) & (leaves <= cap) & (slot < cap) & (slot <= leaves)
}

// The slot at the root. No `Option`: where `win` was altered it may be one that has no leaf, and the caller refuses that by 26.
#[tactic(auto, unfolding(crate::specs::Calls::least_of))]
pub fn least(win: &[u32], leaves: u32) -> u32
    ensures { result ≡ least_of win.now leaves }
{
    nodes::slot_at(win, leaves as usize, 1)
}

impl TreeMut<'_> {
    // The slot, which was free, gets the key (due_ms, seq).
    #[tactic(auto, unfolding(crate::specs::Calls::placed_of))]
    fn place(&mut self, leaves: u32, slot: u32, due_ms: f64, seq: u64)
        requires { (leaves ≤ max_capacity) × (slot < leaves) }
        ensures made { tree_in leaves self.new ≡ placed_of (tree_in leaves self.old) slot due_ms seq }
        ensures same { SameTables self.old self.new }
    {
        tables::set(self.dues, slot as usize, due_ms);
        tables::set(self.seqs, slot as usize, seq);
        self.climb(leaves as usize, slot);
    }

    // The slot, which was free, gets the key (due_ms, seq), and a leaf if it has none. Nothing changes where the slot cannot enter,
    // as `fits` tells. Returned is the number of leaves, and no `Option`, since it is the queue's next one in either case.
    pub fn enter(&mut self, cap: u32, leaves: u32, slot: u32, due_ms: f64, seq: u64) -> u32
        ensures made { tree_in result self.new ≡ enter_of cap slot due_ms seq (tree_in leaves self.old) }
        ensures same { SameTables self.old self.new }
    {
        if !fits(cap, leaves, slot) {
            return leaves;
        }
        let more = self.widen(cap, leaves, slot);
        self.place(more, slot, due_ms, seq);
        more
    }

    // The slot gets the key of a free one. Nothing changes where it has no leaf, or there are more leaves than slots may be.
    #[tactic(auto, unfolding(crate::specs::Calls::leave_of, crate::specs::Calls::freed_of))]
    pub fn leave(&mut self, leaves: u32, slot: u32)
        ensures made { tree_in leaves self.new ≡ leave_of slot (tree_in leaves self.old) }
        ensures same { SameTables self.old self.new }
    {
        if MAX_CAPACITY < leaves || leaves <= slot {
            return;
        }
        tables::set(self.dues, slot as usize, FREE_DUE);
        tables::set(self.seqs, slot as usize, FREE_SEQ);
        self.carry(leaves as usize, slot);
    }
}
