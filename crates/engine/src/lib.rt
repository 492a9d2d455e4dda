// The arrival engine of impair.rs: what becomes of each packet, bit for bit.
#![tactic(auto)]

mod counts;
mod creation;
mod decide;
mod engine;
mod overflow;
mod rebind;
mod refusal;
mod stalls;
mod windows;

pub use engine::ArrivalEngine;
