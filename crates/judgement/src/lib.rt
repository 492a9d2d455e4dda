// Refusal 29: which settings of a direction the engine and the device take.
#![tactic(auto)]

mod direction;
mod lists;
mod scalars;
mod setting;

pub use direction::is_settings;
pub use lists::{are_blackouts, are_tcp_kills};
pub use scalars::are_scalars;
