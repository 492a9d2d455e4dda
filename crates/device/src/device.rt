// The state of a device, which goes by value beside the lent tables, as its parts do in document 01. Arrive, release, rebind and teardown stand over calls in
// place, which copy no settings.
use accounts::SendAccountant;
use engine::ArrivalEngine;
use queue::ImpairQueue;

// `torn` counts the copies that resets and teardowns have taken from the queue.
#[derive(Clone, Copy)]
pub struct Device {
    pub engine: ArrivalEngine,
    pub queue: ImpairQueue,
    pub accounts: SendAccountant,
    pub torn: u64,
}
