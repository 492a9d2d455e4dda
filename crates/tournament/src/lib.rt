// A tournament of the slots that hold copies: the least key (due, seq) stands at the root.
#![tactic(auto)]

mod calls;
mod carry;
mod climb;
mod growth;
mod key;
mod nodes;
mod tree;

pub use calls::{fits, least};
pub use tree::{Tree, TreeMut};
