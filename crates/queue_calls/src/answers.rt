// The answers of all calls as one type.
use queue::{Entered, Queued};

// What a call gives where it is not refused.
#[derive(Clone, Copy, Debug, PartialEq)]
pub enum Answer {
    Created,
    Entered(Entered),
    // The copy that left, or that none was due.
    Released(Option<Queued>),
    // When the next copy is due, or that none is held.
    Due(Option<f64>),
    // How many copies were held.
    Drained(usize),
    Held { copies: usize, is_empty: bool },
}
