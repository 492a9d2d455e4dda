// The path of a slot that has another key.
ghost use Rattle.std.specs.Prelude.{◌≡◌, ◌+◌, ◌<◌, ◌≤◌};
ghost use Rattle.numbers.specs.Limits.{max_capacity};
ghost use Rattle.tournament.specs.Trees.{tree_in, SameTables};
ghost use Rattle.tournament.specs.Growth.{tree};
ghost use Rattle.tournament.specs.Paths.{carried_of};

use crate::tree::TreeMut;

impl TreeMut<'_> {
    // The winner and its due are carried from the slot's leaf to the root; at each node they meet the sibling only.
    pub(crate) fn carry(&mut self, leaves: usize, slot: u32)
        requires { (leaves ≤ max_capacity) × (slot < leaves) }
        ensures made { tree_in leaves self.new ≡ tree leaves (carried_of self.old.dues.now self.old.seqs.now leaves (leaves + slot) self.old.win.now (leaves + slot) slot) self.old.dues.now self.old.seqs.now }
        ensures same { SameTables self.old self.new }
    {
        // A `while`, since the ancestors of a leaf are no range.
        let mut node = leaves + slot as usize;
        let mut best = (slot, self.shared().due(slot));
        while 1 < node {
            let tree = self.shared();
            let other = tree.sibling_slot(leaves, node);
            best = tree.better((other, tree.due(other)), best);
            node /= 2;
            tables::set(self.win, node, best.0);
        }
    }
}
