// The draws of the impaired line: the generator of rng.rs, and the seed of a direction from impair.rs.
#![tactic(auto)]

mod rng;
mod seeds;

pub use rng::Rng;
pub use seeds::{direction_seed, mix};
