// How the copies of a packet enter.
ghost use Rattle.std.specs.Prelude.{◌≡◌, ◌+◌, ◌<◌, ◌≤◌, ◌^◌, length};
ghost use Rattle.tournament.specs.Trees.{SameTables};
ghost use Rattle.queue.specs.Tables.{after};
ghost use Rattle.queue.specs.Lent.{entry_tables, SameRows};
ghost use Rattle.queue.specs.Refusals.{RoomFor};
ghost use Rattle.queue.specs.Calls.{next_slot, one_more, enter_copy_of, enter_copies_of, push_of};

use crate::answers::Entered;
use crate::queue::ImpairQueue;
use crate::rows::{Packet, RowsMut};
use crate::sizes::Sizes;
use numbers::Refusal;
use tournament::TreeMut;

// The copy id of the second copy.
const SECOND_COPY_ID: u32 = 1;

impl ImpairQueue {
    // The slot that the next copy takes: the last that a copy left, or the first that was never used.
    #[tactic(auto, unfolding(crate::specs::Calls::next_slot))]
    fn next_slot(self, free: &[u32]) -> u32
        requires { self.held ≤ self.opened }
        ensures { result ≡ next_slot self free.now }
    {
        if self.held == self.opened {
            self.opened
        } else {
            tables::get(free, (self.opened - self.held - 1) as usize, 0)
        }
    }

    // The state with one copy more.
    fn one_more(self, leaves: u32) -> ImpairQueue
        requires { RoomFor 1 self }
        ensures { result ≡ one_more self leaves }
    {
        let held = self.held + 1;
        ImpairQueue {
            cap: self.cap,
            width: self.width,
            held,
            next_seq: self.next_seq + 1,
            leaves,
            opened: self.opened.max(held),
        }
    }

    // One copy enters its slot with the next seq, or 26 where the slot is out of range.
    fn enter_copy(
        self,
        tree: &mut TreeMut<'_>,
        free: &[u32],
        rows: &mut RowsMut<'_>,
        packet: Packet,
        bytes: &[u8],
    ) -> (ImpairQueue, Result<(), Refusal>)
        requires { (self.held ≤ self.opened) × RoomFor 1 self × (length bytes.now < 2 ^ 32) }
        ensures counted { (result.0.held ≤ result.0.opened) × (result.0.held ≤ self.held + 1) × (result.0.next_seq ≤ self.next_seq + 1) }
        ensures entered { after result (entry_tables tree.new free.now rows.new) ≡ enter_copy_of self (entry_tables tree.old free.now rows.old) packet.due_ms packet.arrival_ms packet.route packet.copy_id bytes.now }
        ensures same { SameTables tree.old tree.new × SameRows rows.old rows.new }
    {
        let slot = self.next_slot(free);
        if !tournament::fits(self.cap, self.leaves, slot) {
            return (self, Err(Refusal::Keeping));
        }
        let seq = self.next_seq;
        let leaves = tree.enter(self.cap, self.leaves, slot, packet.due_ms, seq);
        rows.write(self.width, slot, packet, bytes);
        (self.one_more(leaves), Ok(()))
    }

    // The first copy enters, then a second one if the packet is duplicated and the queue is not full.
    fn enter_copies(
        self,
        tree: &mut TreeMut<'_>,
        free: &[u32],
        rows: &mut RowsMut<'_>,
        packet: Packet,
        bytes: &[u8],
    ) -> (ImpairQueue, Result<Entered, Refusal>)
        requires { (self.held ≤ self.opened) × RoomFor 2 self × (length bytes.now < 2 ^ 32) }
        ensures entered { after result (entry_tables tree.new free.now rows.new) ≡ enter_copies_of self (entry_tables tree.old free.now rows.old) packet.due_ms packet.arrival_ms packet.route packet.copy_id packet.duplicated bytes.now }
        ensures same { SameTables tree.old tree.new × SameRows rows.old rows.new }
    {
        let seq = self.next_seq;
        let (queue, first) = self.enter_copy(tree, free, rows, packet, bytes);
        let again = first.is_ok() & packet.duplicated & (queue.held != queue.cap);
        if !again {
            return (queue, first.map(|()| Entered { seq, copies: 1 }));
        }
        let second = Packet {
            copy_id: SECOND_COPY_ID,
            ..packet
        };
        let (queue, last) = queue.enter_copy(tree, free, rows, second, bytes);
        (queue, last.map(|()| Entered { seq, copies: 2 }))
    }

    // The copies of a packet enter: the first with the next seq and the copy id; if it is duplicated, a second with the seq after it and copy id 1, unless
    // the queue is full by then. Or a refusal by 23, 21, 22, 27, 25, 26 or 28, judged once, on the state handed in.
    #[tactic(auto, unfolding(crate::specs::Calls::push_of, crate::specs::Refusals::memory_of))]
    pub fn push(
        self,
        tree: &mut TreeMut<'_>,
        free: &[u32],
        rows: &mut RowsMut<'_>,
        packet: Packet,
        bytes: &[u8],
    ) -> (ImpairQueue, Result<Entered, Refusal>)
        ensures pushed { after result (entry_tables tree.new free.now rows.new) ≡ push_of self (entry_tables tree.old free.now rows.old) packet.due_ms packet.arrival_ms packet.route packet.copy_id packet.duplicated bytes.now }
        ensures same { SameTables tree.old tree.new × SameRows rows.old rows.new }
    {
        let sizes = Sizes::of(tree.shared(), free, rows.shared());
        if let Err(refusal) = self.judge_push(sizes, packet, bytes.len()) {
            return (self, Err(refusal));
        }
        self.enter_copies(tree, free, rows, packet, bytes)
    }
}
