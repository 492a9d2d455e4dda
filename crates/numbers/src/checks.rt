ghost use Rattle.std.specs.Prelude.{◌≡◌};
ghost use Rattle.numbers.specs.Checks.{check_of};

use crate::refusal::Refusal;

// Lets a call go on where a test passes, and refuses it where it fails.
#[tactic(auto, unfolding(crate::specs::Checks::check_of))]
pub fn check(passes: bool, refusal: Refusal) -> Result<(), Refusal>
    ensures { result ≡ check_of passes refusal }
{
    if passes { Ok(()) } else { Err(refusal) }
}
