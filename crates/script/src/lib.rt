// Scripts: lines from standard input, and what the words of a line stand for.
#![tactic(auto)]

mod asked;
mod beyond;
pub mod calls;
pub mod hex;
mod input;
mod line;
pub mod lines;
pub mod patterns;
pub mod payload;
#[cfg(test)]
mod tests;
pub mod words;

pub use asked::Asked;
pub use beyond::Beyond;
pub use input::UntilFailure;
pub use line::{Cut, LONGEST, LONGEST_TEXT, Line};
