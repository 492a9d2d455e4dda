// The device's answers as words, and its calls over lent memory, for the programs.
#![tactic(auto)]

pub mod lent;
mod words;

pub use words::{Happened, Torn};
