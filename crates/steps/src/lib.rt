// The steps of an arrival, each by itself, and their chain.
#![tactic(auto)]

mod arrival;
mod blackouts;
mod bucket;
mod burst;
mod chance;
mod decision;
mod due;
mod gate;
mod mtu;

pub use arrival::{Arrival, ArrivalState, arrived};
pub use blackouts::any_window;
pub use bucket::bucket_capacity;
pub use decision::Decision;
pub use gate::{Gate, kill_gate, kill_now};
