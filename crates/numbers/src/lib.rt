// Arithmetic, limits and refusals that the layers above share.
#![tactic(auto)]

mod checks;
mod extremes;
mod instant;
mod limits;
mod refusal;
mod whole;
mod wrapping;

pub use checks::check;
pub use extremes::{maximum, minimum};
pub use instant::is_instant;
pub use limits::{MAX_CAPACITY, MAX_ENTRIES, MAX_EXACT, is_counter, is_length, is_width};
pub use refusal::{Refusal, UnknownRefusal};
pub use whole::float_of;
pub use wrapping::wrapping_mul;
