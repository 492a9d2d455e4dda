// The lent tables of a tree: `win` has the winners at its nodes, `dues` and `seqs` the keys of its slots.
// Document 01 has each field of a copy as a table of its own. The number of leaves is the queue's state and not lent, so it comes beside them.
ghost use Rattle.std.specs.Prelude.{◌≡◌, get_or};
ghost use Rattle.numbers.specs.Whole.{whole};

// The tables, to be read.
#[derive(Clone, Copy)]
pub struct Tree<'a> {
    pub win: &'a [u32],
    pub dues: &'a [f64],
    pub seqs: &'a [u64],
}

// The tables, to be written. A type beside `Tree`, so that a call that only reads asks for no more than that.
#[derive(Drop)]
pub struct TreeMut<'a> {
    pub win: &'a mut [u32],
    pub dues: &'a mut [f64],
    pub seqs: &'a mut [u64],
}

impl Tree<'_> {
    // The due of a slot.
    pub fn due(self, slot: u32) -> f64
        ensures { result ≡ get_or self.entry.dues.now slot (whole 0) }
    {
        tables::get(self.dues, slot as usize, 0.0)
    }

    // The seq of a slot.
    pub fn seq(self, slot: u32) -> u64
        ensures { result ≡ get_or self.entry.seqs.now slot 0 }
    {
        tables::get(self.seqs, slot as usize, 0)
    }
}

impl TreeMut<'_> {
    // The same tables, to be read.
    pub fn shared(&self) -> Tree<'_>
        ensures { (result.win.now ≡ self.now.win.now) × (result.dues.now ≡ self.now.dues.now) × (result.seqs.now ≡ self.now.seqs.now) }
    {
        Tree {
            win: self.win,
            dues: self.dues,
            seqs: self.seqs,
        }
    }
}
