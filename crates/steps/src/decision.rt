// What becomes of an arriving packet.
ghost use Rattle.std.specs.Prelude.{◌≡◌};
ghost use Rattle.steps.specs.Decision.{is_drop_of};

// It is dropped for a reason, or enqueued with its due and whether it is duplicated, or its connection is reset.
#[derive(Clone, Copy, Debug, PartialEq)]
pub enum Decision {
    DropRandom,
    DropGe,
    DropMtu,
    DropBlackout,
    DropKillHold,
    Enqueue { due_ms: f64, extra_dup: bool },
    KillRst,
}

impl Decision {
    #[tactic(auto, unfolding(crate::specs::Decision::is_drop_of))]
    pub fn is_drop(self) -> bool
        ensures { result ≡ is_drop_of self }
    {
        !matches!(self, Decision::Enqueue { .. } | Decision::KillRst)
    }
}
