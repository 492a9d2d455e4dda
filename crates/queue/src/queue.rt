// The state of a queue, which goes by value beside the lent tables and comes back beside the answer: document 01 gives its calls this form.
ghost use Rattle.std.specs.Prelude.{◌≡◌};
ghost use Rattle.queue.specs.Calls.{len_of, is_empty_of};

// A slot has `width` bytes. `leaves` slots have a leaf in the tournament, and the first `opened` slots were used. The slots that copies have left lie in the
// table `free`, the last one last.
#[derive(Clone, Copy, Debug, PartialEq, Eq)]
pub struct ImpairQueue {
    pub cap: u32,
    pub width: u32,
    pub held: u32,
    pub next_seq: u64,
    pub leaves: u32,
    pub opened: u32,
}

impl ImpairQueue {
    // How many copies are held.
    pub fn len(self) -> usize
        ensures { result ≡ len_of self }
    {
        self.held as usize
    }

    // Whether no copy is held.
    pub fn is_empty(self) -> bool
        ensures { result ≡ is_empty_of self }
    {
        self.held == 0
    }
}
