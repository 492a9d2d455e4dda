// When a packet is due.
ghost use Rattle.std.specs.Prelude.{◌≡◌};
ghost use Rattle.steps.specs.Due.{jittered_of, reordered_of, owed_of};

use crate::chance;
use draws::Rng;

// The generator, and the due with a part of the jitter added, by one draw; no draw is made where there is no jitter.
#[tactic(auto, using(numbers::specs::Laws::Literals::zero_is), unfolding(crate::specs::Due::jittered_of))]
pub(crate) fn jittered(rng: Rng, due_ms: f64, jitter_ms: f64) -> (Rng, f64)
    ensures { result ≡ jittered_of rng due_ms jitter_ms }
{
    chance::drawn(
        rng,
        jitter_ms > 0.0,
        due_ms,
        |draw| due_ms + draw * jitter_ms,
    )
}

// The reorder delay is added where the reorder draw hit.
#[tactic(auto, unfolding(crate::specs::Due::reordered_of))]
pub(crate) fn reordered(hit: bool, due_ms: f64, reorder_delay_ms: f64) -> f64
    ensures { result ≡ reordered_of hit due_ms reorder_delay_ms }
{
    if hit {
        due_ms + reorder_delay_ms
    } else {
        due_ms
    }
}

// A debt puts the due off until the bucket would cover it.
#[tactic(auto, using(numbers::specs::Laws::Literals::zero_is, numbers::specs::Laws::Literals::eight_thousand_is), unfolding(crate::specs::Due::owed_of, crate::specs::Due::waited_of, numbers::specs::Credit::wait_of))]
pub(crate) fn owed(tokens: f64, rate: Option<u64>, now_ms: f64, due_ms: f64) -> f64
    ensures { result ≡ owed_of tokens rate now_ms due_ms }
{
    match rate {
        Some(bps) if tokens < 0.0 => {
            let wait_ms = (-tokens) * 8000.0 / numbers::float_of(bps);
            numbers::maximum(due_ms, now_ms + wait_ms)
        }
        _ => due_ms,
    }
}
