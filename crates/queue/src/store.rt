// Where the bytes of a copy lie.
ghost use Rattle.std.specs.Prelude.{◌≡◌};
ghost use Rattle.queue.specs.Calls.{payload_of};

// The first `length` bytes of a slot of that width: a released copy's bytes. None where slot or length is out of range.
pub fn payload(store: &[u8], width: u32, slot: u32, length: usize) -> &[u8]
    ensures { result.now ≡ payload_of width store.now slot length }
{
    tables::part(store, width, slot, length)
}
