ghost use Rattle.std.specs.Prelude.{◌≡◌};
ghost use Rattle.numbers.specs.Limits.{is_width_of, is_length_of, is_counter_of};

// Every whole number up to this one, 2^53, is a float.
pub const MAX_EXACT: u64 = 9007199254740992;

// The most blackouts, and the most kills, of a direction.
pub const MAX_ENTRIES: usize = 128;

// The fewest and the most bytes that a slot can have.
const MIN_WIDTH: usize = 64;

const MAX_WIDTH: usize = 9216;

// The longest packet in bytes, where there are no slots.
const MAX_LENGTH: usize = MAX_WIDTH;

// The most copies that a queue can hold.
pub const MAX_CAPACITY: u32 = 1048576;

// The least number that no counter may have when it is handed in.
const COUNTER_LIMIT: u64 = 0x1000_0000_0000_0000;

// Whether slots can have this many bytes: refusal 30 turns away fewer than 64 and more than 9,216.
#[tactic(auto, unfolding(crate::specs::Limits::is_width_of))]
pub fn is_width(width: usize) -> bool
    ensures { result ≡ is_width_of width }
{
    (MIN_WIDTH <= width) & (width <= MAX_WIDTH)
}

// Whether a packet can have this length where there are no slots: refusal 22 turns away more than 9,216 bytes.
pub fn is_length(len: usize) -> bool
    ensures { result ≡ is_length_of len }
{
    len <= MAX_LENGTH
}

// Whether a counter can be handed in with this value: refusal 25 turns away 2^60 and more.
pub fn is_counter(n: u64) -> bool
    ensures { result ≡ is_counter_of n }
{
    n < COUNTER_LIMIT
}
