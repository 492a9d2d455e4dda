// The bytes of a slot: slot number `slot` of a store has `width` bytes from slot * width on.
ghost use Rattle.std.specs.Prelude.{◌≡◌, ◌+◌, ◌≤◌, length};
ghost use Rattle.tables.specs.Slots.{filled_of, part_of, copied_of};

// The bytes at the front of a slot become `bytes`. Nothing changes where they are more than the slot has or lie outside the store. By a
// test, since the proof does not close with `get_mut`.
#[tactic(auto, unfolding(crate::specs::Slots::filled_of))]
pub fn fill(store: &mut [u8], width: u32, slot: u32, bytes: &[u8])
    ensures { store.new ≡ filled_of width store.old slot bytes.now }
{
    if (width as usize) < bytes.len() {
        return;
    }
    let start = slot as usize * width as usize;
    if store.len() < start + bytes.len() {
        return;
    }
    copy(store, start, bytes);
}

// All of `bytes` are stored from `start` on. By index: with `copy_from_slice` a static library would need `memmove` from outside.
fn copy(store: &mut [u8], start: usize, bytes: &[u8])
    requires { start + length bytes.now ≤ length store.old }
    ensures { store.new ≡ copied_of store.old start bytes.now }
{
    for i in 0..bytes.len() {
        store[start + i] = bytes[i];
    }
}

// The first `len` bytes of a slot: none where the slot has fewer or they lie outside the store.
#[tactic(auto, unfolding(crate::specs::Slots::part_of))]
pub fn part(store: &[u8], width: u32, slot: u32, len: usize) -> &[u8]
    ensures { result.now ≡ part_of width store.now slot len }
{
    if (width as usize) < len {
        return &[];
    }
    let start = slot as usize * width as usize;
    store.get(start..start + len).unwrap_or(&[])
}
