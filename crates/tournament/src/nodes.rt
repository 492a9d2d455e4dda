// The nodes: node 1 is the root, node k has the children 2k and 2k + 1, and node `leaves` + s is the leaf of slot s.
ghost use Rattle.std.specs.Prelude.{◌≡◌, ◌<◌, ◌^◌};
ghost use Rattle.tournament.specs.Nodes.{slot_at_of, winner_of, sibling};

use crate::key;
use crate::tree::Tree;

// The slot at a node: an inner node's stands in the table, a leaf is its own.
#[tactic(auto, unfolding(crate::specs::Nodes::slot_at_of))]
pub(crate) fn slot_at(win: &[u32], leaves: usize, node: usize) -> u32
    requires { node < 2 ^ 32 }
    ensures { result ≡ slot_at_of win.now leaves node }
{
    if node < leaves {
        tables::get(win, node, 0)
    } else {
        (node - leaves) as u32
    }
}

impl Tree<'_> {
    // The slot at the other child of a node's parent.
    pub(crate) fn sibling_slot(self, leaves: usize, node: usize) -> u32
        requires { node < 2 ^ 31 }
        ensures { result ≡ slot_at_of self.entry.win.now leaves (sibling node) }
    {
        slot_at(self.win, leaves, 4 * (node / 2) + 1 - node)
    }

    // The better of a node's two children.
    #[tactic(auto, unfolding(crate::specs::Nodes::winner_of))]
    pub(crate) fn winner(self, leaves: usize, node: usize) -> u32
        requires { node < 2 ^ 31 }
        ensures { result ≡ winner_of self.entry.win.now self.entry.dues.now self.entry.seqs.now leaves node }
    {
        let a = slot_at(self.win, leaves, 2 * node);
        let b = slot_at(self.win, leaves, 2 * node + 1);
        key::choose(self.less(b, a), b, a)
    }
}
