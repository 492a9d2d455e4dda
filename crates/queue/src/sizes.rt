// How long the lent tables and the store are.
ghost use Rattle.std.specs.Prelude.{◌≡◌};
ghost use Rattle.queue.specs.Lent.{seen_tables};
ghost use Rattle.queue.specs.Refusals.{sizes_of, room_of};

use crate::rows::Rows;
use tournament::Tree;

#[derive(Clone, Copy)]
pub struct Sizes {
    pub win: usize,
    pub free: usize,
    pub dues: usize,
    pub seqs: usize,
    pub arrivals: usize,
    pub routes: usize,
    pub copy_ids: usize,
    pub lengths: usize,
    pub store: usize,
}

impl Sizes {
    // The sizes of these.
    pub fn of(tree: Tree<'_>, free: &[u32], rows: Rows<'_>) -> Sizes
        ensures { result ≡ sizes_of (seen_tables tree.entry free.now rows.entry) }
    {
        Sizes {
            win: tree.win.len(),
            free: free.len(),
            dues: tree.dues.len(),
            seqs: tree.seqs.len(),
            arrivals: rows.arrivals.len(),
            routes: rows.routes.len(),
            copy_ids: rows.copy_ids.len(),
            lengths: rows.lengths.len(),
            store: rows.store.len(),
        }
    }

    // Whether there is room for a capacity of slots of that width.
    pub(crate) fn have_room(self, cap: u32, width: u32) -> bool
        ensures { result ≡ room_of width cap self }
    {
        let entries = cap as usize;
        let shortest = self
            .win
            .min(self.free)
            .min(self.dues)
            .min(self.seqs)
            .min(self.arrivals)
            .min(self.routes)
            .min(self.copy_ids)
            .min(self.lengths);
        (entries <= shortest) & (entries * width as usize <= self.store)
    }
}
