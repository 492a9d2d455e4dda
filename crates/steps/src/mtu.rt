ghost use Rattle.std.specs.Prelude.{◌≡◌};
ghost use Rattle.steps.specs.Mtu.{exceeds_of};

// Whether a packet is longer than the line lets through.
#[tactic(auto, unfolding(crate::specs::Mtu::exceeds_of))]
pub(crate) fn exceeds(mtu: Option<usize>, len: usize) -> bool
    ensures { result ≡ exceeds_of mtu len }
{
    mtu.is_some_and(|most| most < len)
}
