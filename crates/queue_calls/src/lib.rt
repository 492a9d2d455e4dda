// The queue's calls as values, the memory that they are lent, and the queue's answers as words, for the programs.
#![tactic(auto)]

mod answers;
mod calls;
mod memory;
mod part;
mod table;
mod tally;
mod words;

pub use answers::Answer;
pub use calls::Call;
pub use memory::{Lent, Memory};
pub use part::Part;
pub use table::Table;
pub use tally::Tally;
pub use words::Told;
