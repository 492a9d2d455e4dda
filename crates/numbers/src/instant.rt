ghost use Rattle.std.specs.Prelude.{◌≡◌};
ghost use Rattle.numbers.specs.Instant.{is_instant_of};

// The last instant: 2^53 milliseconds.
const LAST_INSTANT: f64 = 9007199254740992.0;

// Whether t can be an instant: refusal 21 turns away a NaN, a set sign bit (-0 too) and more than 2^53.
pub fn is_instant(t: f64) -> bool
    ensures { result ≡ is_instant_of t }
{
    t <= LAST_INSTANT && !t.is_sign_negative()
}
