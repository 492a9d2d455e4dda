// The chain of an arrival's steps.
ghost use Rattle.std.specs.Prelude.{◌≡◌};
ghost use Rattle.steps.specs.Arrival.{stopped_of, scheduled_of, passed_of, arrived_of};

use crate::decision::Decision;
use crate::gate::Gate;
use crate::{bucket, burst, chance, due, mtu};
use draws::Rng;
use options::DirectionConfig;

// What decides an arrival beside the settings, and is changed by it. The engine has these fields one by one, as the source has.
#[derive(Clone, Copy)]
pub struct ArrivalState {
    pub rng: Rng,
    pub ge_bad: bool,
    pub tokens: f64,
    pub last_refill_ms: f64,
}

// The state after an arrival, its decision, whether the bucket deferred it, and whether the reorder draw hit.
#[derive(Clone, Copy)]
pub struct Arrival {
    pub state: ArrivalState,
    pub decision: Decision,
    pub deferred: bool,
    pub reordered: bool,
}

// The packet goes no further.
#[tactic(auto, unfolding(crate::specs::Arrival::stopped_of))]
fn stopped(state: ArrivalState, decision: Decision) -> Arrival
    ensures { result ≡ stopped_of state decision }
{
    Arrival {
        state,
        decision,
        deferred: false,
        reordered: false,
    }
}

// Steps 7 to 11. Beside settings and state, of which the one is only read and the other changes, go the arguments of document 01's `arrive`; a struct of the four
// would only be taken apart again.
#[tactic(auto, unfolding(crate::specs::Arrival::scheduled_of))]
fn scheduled(c: &DirectionConfig, s: ArrivalState, now_ms: f64, len: usize) -> Arrival
    ensures { result ≡ scheduled_of c.now s now_ms len }
{
    let rate = c.rate_bps;
    let tokens = bucket::charged(c, s, now_ms, len);
    let (rng, extra_dup) = chance::tried(s.rng, c.duplicate_p);
    let (rng, delayed_ms) = due::jittered(rng, now_ms + c.delay_ms, c.jitter_ms);
    let (rng, reordered) = chance::tried(rng, c.reorder_p);
    let put_off_ms = due::reordered(reordered, delayed_ms, c.reorder_delay_ms);
    let due_ms = due::owed(tokens, rate, now_ms, put_off_ms);
    Arrival {
        state: ArrivalState {
            rng,
            ge_bad: s.ge_bad,
            tokens,
            last_refill_ms: bucket::last_refill(s.last_refill_ms, rate, now_ms),
        },
        decision: Decision::Enqueue { due_ms, extra_dup },
        deferred: bucket::is_deferred(rate, tokens),
        reordered,
    }
}

// Steps 4 to 6, and then the rest.
#[tactic(auto, unfolding(crate::specs::Arrival::passed_of, crate::specs::Arrival::from_ge, crate::specs::Arrival::from_mtu))]
fn passed(c: &DirectionConfig, mut s: ArrivalState, now_ms: f64, len: usize) -> Arrival
    ensures { result ≡ passed_of c.now s now_ms len }
{
    let (rng, lost) = chance::tried(s.rng, c.loss);
    s.rng = rng;
    if lost {
        return stopped(s, Decision::DropRandom);
    }
    let (rng, bad, burst_lost) = burst::burst_loss(rng, s.ge_bad, c.ge);
    s.rng = rng;
    s.ge_bad = bad;
    if burst_lost {
        return stopped(s, Decision::DropGe);
    }
    if mtu::exceeds(c.mtu, len) {
        return stopped(s, Decision::DropMtu);
    }
    scheduled(c, s, now_ms, len)
}

// What becomes of an arrival, once the windows have been asked.
#[tactic(auto, unfolding(crate::specs::Arrival::arrived_of))]
pub fn arrived(gate: Gate, c: &DirectionConfig, s: ArrivalState, now_ms: f64, len: usize) -> Arrival
    ensures { result ≡ arrived_of gate c.now s now_ms len }
{
    match gate {
        Gate::Open => passed(c, s, now_ms, len),
        Gate::Reset => stopped(s, Decision::KillRst),
        Gate::Held => stopped(s, Decision::DropKillHold),
        Gate::Blackout => stopped(s, Decision::DropBlackout),
    }
}
