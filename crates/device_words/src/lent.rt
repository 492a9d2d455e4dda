// Calls on a device over lent memory. By value: the form that document 01 gives the calls.
use device::{Arrived, Device};
use numbers::Refusal;
use options::DirectionConfig;
use queue::Queued;
use queue_calls::Lent;

pub fn create(
    lent: &mut Lent<'_>,
    settings: DirectionConfig,
    seed: u64,
    salt: u64,
    cap: usize,
    width: usize,
) -> (Device, Result<(), Refusal>) {
    let free = &mut *lent.free;
    let (tree, rows) = (lent.tree.shared(), lent.rows.shared());
    Device::create(settings, seed, salt, cap, width, tree, free, rows)
}

pub fn arrive(
    device: Device,
    lent: &mut Lent<'_>,
    now_ms: f64,
    bytes: &[u8],
    route: u64,
) -> (Device, Result<Arrived, Refusal>) {
    let free = &mut *lent.free;
    let (tree, rows) = (&mut lent.tree, &mut lent.rows);
    device.arrive(tree, free, rows, now_ms, bytes, route)
}

pub fn release(
    device: Device,
    lent: &mut Lent<'_>,
    now_ms: f64,
) -> (Device, Result<Option<Queued>, Refusal>) {
    let rows = lent.rows.shared();
    device.release(&mut lent.tree, lent.free, rows, now_ms)
}
