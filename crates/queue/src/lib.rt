// The queue of impair.rs: copies of packets wait in lent memory until they are due, the least (due, seq) first.
#![tactic(auto)]

mod answers;
mod creation;
mod due;
mod push;
mod queue;
mod refusal;
mod release;
mod rows;
mod sizes;
mod store;

pub use answers::{Entered, Queued};
pub use creation::DEFAULT_WIDTH;
pub use queue::ImpairQueue;
pub use rows::{Packet, Rows, RowsMut};
pub use sizes::Sizes;
pub use store::payload;
pub use tournament::{Tree, TreeMut};
