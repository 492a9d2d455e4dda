// What the calls answer, beside the queue that they hand back.

// A copy that leaves: its bytes are the first `length` of its slot.
#[derive(Clone, Copy, Debug, PartialEq)]
pub struct Queued {
    pub due_ms: f64,
    pub seq: u64,
    pub arrival_ms: f64,
    pub route: u64,
    pub copy_id: u32,
    pub length: usize,
    pub slot: u32,
}

// The copies of a packet entered: the seq of the first, and how many.
#[derive(Clone, Copy, Debug, PartialEq, Eq)]
pub struct Entered {
    pub seq: u64,
    pub copies: u32,
}
