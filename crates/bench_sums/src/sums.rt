// What the calls answer, summed up, so that none of their work can be left out.
use numbers::Refusal;
use queue::Queued;

// The sum rotated by five bits, so that the order counts.
pub fn add(sum: u64, weight: u64) -> u64 {
    sum.rotate_left(5) ^ weight
}

// The bits of a float, and 0 for a NaN. With an `Option`, as in `device_edges`, each of its callers would add `unwrap_or(0)`.
pub fn bits(x: f64) -> u64 {
    if x.is_nan() { 0 } else { x.to_bits() }
}

// The number of a refusal.
pub fn number(refusal: Refusal) -> u64 {
    u64::from(u32::from(refusal))
}

// The first byte, and 256 where there is none.
fn first(bytes: &[u8]) -> u64 {
    bytes.first().map_or(256, |byte| u64::from(*byte))
}

// The bytes of a copy that left go to `sent`, as a host hands them on; a slot and `sent` have `width` bytes. Returned is the sum of its first byte, seq, route
// and copy id.
pub fn send(store: &[u8], width: u32, copy: Queued, sent: &mut [u8]) -> u64 {
    let bytes = queue::payload(store, width, copy.slot, copy.length);
    tables::fill(sent, width, 0, bytes);
    copy.seq
        .wrapping_add(copy.route)
        .wrapping_add(first(sent))
        .wrapping_add(u64::from(copy.copy_id))
}
