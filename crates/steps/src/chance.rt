// Draws that are made where something hangs on them.
ghost use Rattle.std.specs.Prelude.{◌≡◌, true, false, cond};
ghost use Rattle.draws.specs.Rng.{next_f64_of};
ghost use Rattle.steps.specs.Chance.{chance_of};

use draws::Rng;

// The generator after a draw and what comes of the draw, where one is wanted; else the generator as it was, and what stands for no draw.
pub(crate) fn drawn<T: Copy, F: FnOnce(f64) -> T>(
    rng: Rng,
    wanted: bool,
    undrawn: T,
    outcome: F,
) -> (Rng, T)
    requires { F.IsAlwaysCallable outcome }
    ensures rng { result.0 ≡ cond wanted (next_f64_of rng).0 rng }
    ensures outcome { wanted ≡ true → F.post outcome (next_f64_of rng).1 result.1 }
    ensures undrawn { wanted ≡ false → result.1 ≡ undrawn }
{
    if wanted {
        let (rng, draw) = rng.next_f64();
        (rng, outcome(draw))
    } else {
        (rng, undrawn)
    }
}

// The generator, and whether a draw was below the probability; no draw is made where that is not above 0.
#[tactic(auto, using(numbers::specs::Laws::Literals::zero_is), unfolding(crate::specs::Chance::chance_of))]
pub(crate) fn tried(rng: Rng, p: f64) -> (Rng, bool)
    ensures { result ≡ chance_of rng p }
{
    drawn(rng, p > 0.0, false, |draw| draw < p)
}
