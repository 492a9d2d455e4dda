// The option text of config.rs: the settings that it gives, or the refusal.
#![tactic(auto)]

mod config;
mod delays;
mod direction;
mod keys;
mod limits;
mod losses;
mod mode;
mod parse;
mod scalars;
mod schedules;

pub use config::{Config, DirectionConfig};
pub use limits::{burst_of, default_burst};
pub use mode::Mode;
pub use parse::parse_config;
pub use settings::{Ge, KillStyle, TcpKill, Window};
