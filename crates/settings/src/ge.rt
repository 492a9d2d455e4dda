// Gilbert-Elliott burst loss.
ghost use Rattle.std.specs.Prelude.{◌≡◌};
ghost use Rattle.settings.specs.Bursts.{bursts_of, parse_ge_of};

use numbers::Refusal;
use values::{parse_prob, three_parts};

// The chances to turn bad, to turn good again, and to lose a packet while bad.
#[derive(Clone, Copy, Debug, PartialEq)]
pub struct Ge {
    pub p: f64,
    pub r: f64,
    pub h: f64,
}

impl Ge {
    // Burst loss of three chances, of which the first two are not zero.
    #[tactic(auto, using(numbers::specs::Laws::Literals::zero_is))]
    fn of(p: f64, r: f64, h: f64) -> Result<Ge, Refusal>
        ensures { result ≡ bursts_of p r h }
    {
        if p <= 0.0 || r <= 0.0 {
            return Err(Refusal::GeZero);
        }
        Ok(Ge { p, r, h })
    }

    // P:R:H. No `TryFrom`: a `parse`, like those that the source has for windows and kill styles.
    pub fn parse(v: &[u8]) -> Result<Ge, Refusal>
        ensures { result ≡ parse_ge_of v.now }
    {
        let (p, r, h) = three_parts(v).ok_or(Refusal::GeParts)?;
        let p = parse_prob(p)?;
        let r = parse_prob(r)?;
        let h = parse_prob(h)?;
        Ge::of(p, r, h)
    }
}
