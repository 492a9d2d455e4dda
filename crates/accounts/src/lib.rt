// The accounts of the impaired line: the statistics of stats.rs, and the send accountant of impair.rs.
#![tactic(auto)]

mod accountant;
mod buckets;
mod counters;
mod joining;
mod latency;
mod stats;

pub use accountant::SendAccountant;
pub use buckets::bucket_index;
pub use latency::LatencyStats;
pub use stats::DirectionStats;
