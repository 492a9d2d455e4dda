// What follows a decision.
ghost use Rattle.std.specs.Prelude.{◌≡◌};
ghost use Rattle.tournament.specs.Trees.{SameTables};
ghost use Rattle.queue.specs.Lent.{entry_tables, SameRows};
ghost use Rattle.queue.specs.Tables.{after};
ghost use Rattle.admission.specs.Follow.{follow_of};

use crate::admitted;
use crate::admitted::Admitted;
use numbers::Refusal;
use queue::{ImpairQueue, Packet, RowsMut, TreeMut};
use steps::Decision;

// A drop leaves the queue as it is, a reset tears it down, and the copies of all else enter or overflow; or 26. Beside what is lent it takes the arguments of
// document 01's `arrive`, of which a packet is made only where the decision lets one through.
#[tactic(auto, unfolding(crate::specs::Follow::follow_of, crate::specs::Follow::copies_of, crate::specs::Admitted::torn_of))]
pub fn follow(
    queue: ImpairQueue,
    tree: &mut TreeMut<'_>,
    free: &[u32],
    rows: &mut RowsMut<'_>,
    decision: Decision,
    now_ms: f64,
    route: u64,
    bytes: &[u8],
) -> (ImpairQueue, Result<Admitted, Refusal>)
    ensures followed { after result (entry_tables tree.new free.now rows.new) ≡ follow_of queue (entry_tables tree.old free.now rows.old) decision now_ms route bytes.now }
    ensures same { SameTables tree.old tree.new × SameRows rows.old rows.new }
{
    match decision {
        Decision::Enqueue { due_ms, extra_dup } => {
            let packet = Packet {
                due_ms,
                arrival_ms: now_ms,
                route,
                copy_id: 0,
                duplicated: extra_dup,
            };
            let (queue, pushed) = queue.push(tree, free, rows, packet, bytes);
            (queue, admitted::tallied(pushed, extra_dup))
        }
        Decision::KillRst => {
            let (queue, drained) = queue.drain();
            (queue, admitted::torn(drained))
        }
        _ => (queue, Ok(admitted::with_copies(0, 0))),
    }
}
