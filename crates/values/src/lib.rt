// The bytes of an option's value: parts of them, and the numbers that they write.
#![tactic(auto)]

mod blanks;
mod bytes;
mod colons;
mod decimal;
mod digits;
mod whole;

pub use blanks::trim;
pub use bytes::{after, before_first, behind_first, front, part, split_once, up_to};
pub use colons::three_parts;
pub use decimal::{parse_f64_ms, parse_prob};
pub use whole::{parse_bounded, parse_positive, parse_u64};
