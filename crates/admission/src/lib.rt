// What a decided arrival does to the queue: its copies enter or overflow, and a reset tears the held ones down.
#![tactic(auto)]

mod admitted;
mod decisions;

pub use admitted::Admitted;
pub use decisions::follow;
