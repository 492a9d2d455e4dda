// What the benchmark's loops share: how their input is read, and how what their calls answer is summed up.
#![tactic(auto)]

mod input;
mod sums;

pub use input::read_text;
pub use sums::{add, bits, number, send};
