// The options of a direction that lose packets.
// Values are read by closures, since a free function of another crate has no proof where it is passed by its name.
ghost use Rattle.std.specs.Prelude.{◌≡◌};
ghost use Rattle.options.specs.Directions.{losses_of};

use crate::keys::Keys;
use numbers::Refusal;
use settings::Ge;
use values::parse_prob;

#[derive(Clone, Copy)]
pub struct Losses {
    pub loss: f64,
    pub ge: Option<Ge>,
}

#[tactic(auto, using(numbers::specs::Laws::Literals::zero_is), unfolding(crate::specs::Directions::losses_of))]
pub fn losses_of(keys: Keys) -> Result<Losses, Refusal>
    ensures { result ≡ losses_of keys.entry.text.now keys.entry.prefix.now }
{
    let loss = keys.last(b"loss").map_or(Ok(0.0), |v| parse_prob(v))?;
    let ge = keys.last(b"ge").map(Ge::parse).transpose()?;
    Ok(Losses { loss, ge })
}
