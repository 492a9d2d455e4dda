// Which refusal meets a call.
ghost use Rattle.std.specs.Prelude.{◌≡◌, true};
ghost use Rattle.queue.specs.Refusals.{room_of, in_keeping, state_refusal, push_refusal, release_refusal};

use crate::queue::ImpairQueue;
use crate::rows::Packet;
use crate::sizes::Sizes;
use numbers::{MAX_CAPACITY, Refusal, check};

impl ImpairQueue {
    // Whether lent memory of these sizes has room for the queue's capacity of slots, as refusal 23 asks.
    pub fn has_memory(self, sizes: Sizes) -> bool
        ensures { result ≡ room_of self.width self.cap sizes }
    {
        sizes.have_room(self.cap, self.width)
    }

    // Whether held ≤ opened ≤ leaves ≤ capacity ≤ 1,048,576, and the width is one that slots can have.
    #[tactic(auto, unfolding(crate::specs::Refusals::in_keeping))]
    pub(crate) fn in_keeping(self) -> bool
        ensures { result ≡ in_keeping self }
    {
        (self.cap <= MAX_CAPACITY)
            & (self.leaves <= self.cap)
            & (self.opened <= self.leaves)
            & (self.held <= self.opened)
            & numbers::is_width(self.width as usize)
    }

    // The refusal that the state gives, after the tests of what is handed in.
    #[tactic(auto, unfolding(crate::specs::Refusals::state_refusal, numbers::specs::Checks::first_refusal, numbers::specs::Checks::check_of))]
    pub(crate) fn judge_state(self) -> Result<(), Refusal>
        ensures { result ≡ state_refusal self true }
    {
        check(numbers::is_counter(self.next_seq), Refusal::Counter)?;
        check(self.in_keeping(), Refusal::Keeping)
    }

    // The refusal that meets a release.
    #[tactic(auto, unfolding(crate::specs::Refusals::release_refusal, crate::specs::Refusals::state_refusal, numbers::specs::Checks::first_refusal, numbers::specs::Checks::check_of))]
    pub(crate) fn judge_release(self, sizes: Sizes, now_ms: f64) -> Result<(), Refusal>
        ensures { result ≡ release_refusal self (room_of self.width self.cap sizes) now_ms }
    {
        check(self.has_memory(sizes), Refusal::Memory)?;
        check(numbers::is_instant(now_ms), Refusal::Instant)?;
        self.judge_state()
    }

    // The refusal that meets a push of so many bytes. What was altered is judged before a full queue is told.
    #[tactic(auto, unfolding(crate::specs::Refusals::push_refusal, crate::specs::Refusals::state_refusal, numbers::specs::Checks::first_refusal, numbers::specs::Checks::check_of))]
    pub(crate) fn judge_push(
        self,
        sizes: Sizes,
        packet: Packet,
        length: usize,
    ) -> Result<(), Refusal>
        ensures { result ≡ push_refusal self (room_of self.width self.cap sizes) packet.due_ms packet.arrival_ms length }
    {
        check(self.has_memory(sizes), Refusal::Memory)?;
        check(numbers::is_instant(packet.arrival_ms), Refusal::Instant)?;
        check(length <= self.width as usize, Refusal::Length)?;
        check(!packet.due_ms.is_nan(), Refusal::Due)?;
        self.judge_state()?;
        check(self.held != self.cap, Refusal::Full)
    }
}
