// A new device.
ghost use Rattle.std.specs.Prelude.{◌≡◌};
ghost use Rattle.queue.specs.Lent.{seen_tables};
ghost use Rattle.device.specs.Creation.{fresh_device, idle_device, create_of};

use crate::device::Device;
use accounts::SendAccountant;
use engine::ArrivalEngine;
use numbers::Refusal;
use options::DirectionConfig;
use queue::{ImpairQueue, Rows, Tree};

// A device of an engine and a queue that are new.
fn fresh(engine: ArrivalEngine, queue: ImpairQueue) -> Device
    ensures { result ≡ fresh_device engine queue }
{
    Device {
        engine,
        queue,
        accounts: SendAccountant::default(),
        torn: 0,
    }
}

// What a refused creation gives: the device of the default settings, the generator's seed 0, capacity 1 and slots of 2,048 bytes.
#[tactic(auto, unfolding(engine::specs::Calls::new_engine_of))]
fn idle() -> Device
    ensures { result ≡ idle_device }
{
    let (engine, _) = ArrivalEngine::new(DirectionConfig::default(), 0);
    fresh(engine, ImpairQueue::smallest())
}

impl Device {
    // A device of settings, seed, salt, capacity and slot width over the lent tables and store, or a refusal by 29, 24, 30 or 23.
    #[tactic(auto, unfolding(crate::specs::Creation::create_of, crate::specs::Creation::created_by, crate::specs::Creation::queued_by))]
    pub fn create(
        settings: DirectionConfig,
        seed: u64,
        salt: u64,
        cap: usize,
        width: usize,
        tree: Tree<'_>,
        free: &[u32],
        rows: Rows<'_>,
    ) -> (Device, Result<(), Refusal>)
        ensures { result ≡ create_of settings seed salt cap width (seen_tables tree.entry free.now rows.entry) }
    {
        let (engine, judged) = ArrivalEngine::new(settings, draws::direction_seed(seed, salt));
        let (queue, opened) = ImpairQueue::create(cap, width, tree, free, rows);
        match judged.and(opened) {
            Ok(()) => (fresh(engine, queue), Ok(())),
            Err(refusal) => (idle(), Err(refusal)),
        }
    }
}
