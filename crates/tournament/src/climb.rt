// The path of a slot that was free and has a key now.
ghost use Rattle.std.specs.Prelude.{◌≡◌, ◌+◌, ◌<◌, ◌≤◌};
ghost use Rattle.numbers.specs.Limits.{max_capacity};
ghost use Rattle.tournament.specs.Trees.{tree_in, SameTables};
ghost use Rattle.tournament.specs.Growth.{tree};
ghost use Rattle.tournament.specs.Paths.{climbed_of};

use crate::tree::TreeMut;

impl TreeMut<'_> {
    // The slot wins at each node above its leaf, up to the first at which the sibling's key is before its own.
    pub(crate) fn climb(&mut self, leaves: usize, slot: u32)
        requires { (leaves ≤ max_capacity) × (slot < leaves) }
        ensures made { tree_in leaves self.new ≡ tree leaves (climbed_of self.old.dues.now self.old.seqs.now leaves (leaves + slot) self.old.win.now (leaves + slot) slot) self.old.dues.now self.old.seqs.now }
        ensures same { SameTables self.old self.new }
    {
        let due = self.shared().due(slot);
        // A `while`, since the ancestors of a leaf are no range.
        let mut node = leaves + slot as usize;
        while 1 < node {
            let tree = self.shared();
            let other = tree.sibling_slot(leaves, node);
            if tree.before((other, tree.due(other)), (slot, due)) {
                return;
            }
            node /= 2;
            tables::set(self.win, node, slot);
        }
    }
}
