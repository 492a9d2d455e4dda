// Gilbert-Elliott burst loss.
ghost use Rattle.std.specs.Prelude.{◌≡◌, cond, not};
ghost use Rattle.steps.specs.Burst.{lost_of, burst_loss_of};

use crate::chance;
use draws::Rng;
use settings::Ge;

// The generator, whether the state is bad now, and whether the packet is lost: a draw may turn the state, and a bad state draws again, for the packet.
#[tactic(auto, unfolding(crate::specs::Burst::burst_loss_of))]
pub(crate) fn burst_loss(rng: Rng, bad: bool, ge: Option<Ge>) -> (Rng, bool, bool)
    ensures { result ≡ burst_loss_of rng bad ge }
{
    match ge {
        None => (rng, bad, false),
        Some(g) => {
            let (rng, draw) = rng.next_f64();
            let flip = draw < flip_chance(bad, g.p, g.r);
            lost(rng, turned(bad, flip), g.h)
        }
    }
}

// The chance to leave the state.
fn flip_chance(bad: bool, p: f64, r: f64) -> f64
    ensures { result ≡ cond bad r p }
{
    if bad { r } else { p }
}

fn turned(bad: bool, flip: bool) -> bool
    ensures { result ≡ cond flip (not bad) bad }
{
    bad != flip
}

// In the bad state a draw against h says whether the packet is lost.
#[tactic(auto, unfolding(crate::specs::Burst::lost_of))]
fn lost(rng: Rng, now_bad: bool, h: f64) -> (Rng, bool, bool)
    ensures { result ≡ lost_of rng now_bad h }
{
    let (rng, lost) = chance::drawn(rng, now_bad, false, |draw| draw < h);
    (rng, now_bad, lost)
}
