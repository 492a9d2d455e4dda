// The device: one direction of an impaired line, with its engine, its queue and its accounts.
#![tactic(auto)]

mod arrive;
mod creation;
mod device;
mod rebind;
mod refusal;
mod release;
mod report;
mod teardown;

pub use arrive::Arrived;
pub use device::Device;
pub use queue::{DEFAULT_WIDTH, payload};
pub use report::{RefusedReport, Report};
