// The arguments of an option text, the values of a key, and scans of the whole text.
#![tactic(auto)]

mod arguments;
mod dashes;
mod key_values;
mod scans;

pub use arguments::{Arg, Args};
pub use key_values::Values;
pub use scans::{check, has_flag, last_of};
