// How an arrival is counted.
ghost use Rattle.std.specs.Prelude.{◌≡◌, ◌≤◌};
ghost use Rattle.numbers.specs.Limits.{max_length};
ghost use Rattle.accounts.specs.Laws.Small.{SmallStats};
ghost use Rattle.engine.specs.Counts.{counts_of, counted_of};
ghost use Rattle.engine.specs.Laws.Counts.{Single};

use accounts::DirectionStats;
use steps::{Arrival, Decision};

// By how much each counter of a decision grows, 0 or 1. Numbers to be added, as in the definition, and no step for each case: that at most one of them is 1 is
// said of the record (`Single`).
#[derive(Clone, Copy)]
pub struct DecisionCounts {
    pub random: u64,
    pub ge: u64,
    pub mtu: u64,
    pub blackout: u64,
    pub duplicates: u64,
}

const NONE: DecisionCounts = DecisionCounts {
    random: 0,
    ge: 0,
    mtu: 0,
    blackout: 0,
    duplicates: 0,
};

#[tactic(auto, unfolding(crate::specs::Counts::counts_of, crate::specs::Counts::one_if))]
fn counts_of(decision: Decision) -> DecisionCounts
    ensures counts { result ≡ counts_of decision }
    ensures single { Single result }
{
    match decision {
        Decision::DropRandom => DecisionCounts { random: 1, ..NONE },
        Decision::DropGe => DecisionCounts { ge: 1, ..NONE },
        Decision::DropMtu => DecisionCounts { mtu: 1, ..NONE },
        Decision::DropBlackout | Decision::DropKillHold => DecisionCounts {
            blackout: 1,
            ..NONE
        },
        Decision::Enqueue { extra_dup, .. } => DecisionCounts {
            duplicates: u64::from(extra_dup),
            ..NONE
        },
        Decision::KillRst => NONE,
    }
}

// Counts one packet more.
#[tactic(auto, unfolding(crate::specs::Counts::counted_of, crate::specs::Counts::one_if))]
pub(crate) fn count(s: &mut DirectionStats, len: usize, a: Arrival)
    requires counters { SmallStats s.old }
    requires length { len ≤ max_length }
    ensures { s.new ≡ counted_of s.old len a }
{
    let c = counts_of(a.decision);
    s.received_pkts += 1;
    s.received_bytes += len as u64;
    s.dropped_random += c.random;
    s.dropped_ge += c.ge;
    s.dropped_mtu += c.mtu;
    s.dropped_blackout += c.blackout;
    s.rate_deferred += u64::from(a.deferred);
    s.duplicates += c.duplicates;
    s.reorder_hits += u64::from(a.reordered);
}
