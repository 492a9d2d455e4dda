// How the tree grows with the slots in use, so that those never used cost nothing.
ghost use Rattle.std.specs.Prelude.{◌≡◌, ◌-◌, ◌<◌, ◌≤◌};
ghost use Rattle.numbers.specs.Limits.{max_capacity};
ghost use Rattle.tournament.specs.Trees.{tree_in, SameTables};
ghost use Rattle.tournament.specs.Growth.{free_dues, free_seqs, built_of, tree, grown_of, widened_of, leaves_for};

use crate::tree::TreeMut;

// The key of a slot that holds no copy: no copy has `FREE_SEQ`. The lent tables are plain numbers, with no room for an `Option`.
pub(crate) const FREE_DUE: f64 = f64::INFINITY;

pub(crate) const FREE_SEQ: u64 = 0xFFFF_FFFF_FFFF_FFFF;

// Twice the leaves, 16 at the least and the capacity at the most.
fn leaves_for(cap: u32, leaves: u32) -> u32
    requires { leaves ≤ max_capacity }
    ensures { result ≡ leaves_for cap leaves }
{
    cap.min((2 * leaves).max(16))
}

impl TreeMut<'_> {
    // The slots from `from` on and below `to` get the key of a free slot.
    fn clear(&mut self, from: usize, to: usize)
        ensures made { tree_in to self.new ≡ tree to self.old.win.now (free_dues from to self.old.dues.now) (free_seqs from to self.old.seqs.now) }
        ensures same { SameTables self.old self.new }
    {
        // By index, since either table may be the shorter one, and a `fill` would need a bound for each.
        for i in from..to {
            tables::set(self.dues, i, FREE_DUE);
            tables::set(self.seqs, i, FREE_SEQ);
        }
    }

    // Every inner node is made the better of its children, the last node first.
    fn build(&mut self, leaves: usize)
        requires { (0 < leaves) × (leaves ≤ max_capacity) }
        ensures made { tree_in leaves self.new ≡ tree leaves (built_of self.old.dues.now self.old.seqs.now leaves (leaves - 1) self.old.win.now) self.old.dues.now self.old.seqs.now }
        ensures same { SameTables self.old self.new }
    {
        for node in (1..leaves).rev() {
            let best = self.shared().winner(leaves, node);
            tables::set(self.win, node, best);
        }
    }

    // The tree of `from` leaves gets `to`.
    #[tactic(auto, unfolding(crate::specs::Growth::grown_of))]
    fn grow(&mut self, from: usize, to: usize)
        requires { (0 < to) × (to ≤ max_capacity) }
        ensures made { tree_in to self.new ≡ grown_of from to self.old.win.now self.old.dues.now self.old.seqs.now }
        ensures same { SameTables self.old self.new }
    {
        self.clear(from, to);
        self.build(to);
    }

    // The tree gets a leaf for the slot, where it has none. Returned is the number of its leaves.
    #[tactic(auto, unfolding(crate::specs::Growth::widened_of))]
    pub(crate) fn widen(&mut self, cap: u32, leaves: u32, slot: u32) -> u32
        requires { (cap ≤ max_capacity) × (leaves ≤ cap) × (slot < cap) }
        ensures made { tree_in result self.new ≡ widened_of cap leaves slot (tree_in leaves self.old) }
        ensures leafed { (slot ≤ leaves → slot < result) × (result ≤ cap) }
        ensures same { SameTables self.old self.new }
    {
        if slot < leaves {
            return leaves;
        }
        let more = leaves_for(cap, leaves);
        self.grow(leaves as usize, more as usize);
        more
    }
}
