// What the programs' words need beyond the standard library: floats by their bits, lists, and answers that may be refusals.
#![tactic(auto)]

mod answered;
mod bits;
mod each;
mod lossy;
mod said;

pub use answered::Answered;
pub use bits::Bits;
pub use each::Each;
pub use lossy::Lossy;
pub use said::say;
