// The bytes of a packet, which a script gives by their number and a seed, and their sum.
ghost use Rattle.std.specs.Prelude.{◌≡◌, min, length};

// The first n bytes, or all where there are fewer.
pub fn front(bytes: &mut [u8], n: u64) -> &mut [u8]
    ensures { length result.now ≡ min (length bytes.old) n }
{
    let count = bytes.len().min(usize::try_from(n).unwrap_or(usize::MAX));
    &mut bytes[..count]
}

// Makes the bytes, and gives them: x becomes x * 6364136223846793005 + 1442695040888963407 modulo 2^64, from x = seed on, and each byte is the top 8 bits of
// the new x.
pub fn fill(bytes: &mut [u8], seed: u64) -> &[u8]
    ensures { length result.now ≡ length bytes.old }
{
    let mut x = seed;
    for byte in bytes.iter_mut() {
        x = x
            .wrapping_mul(6364136223846793005)
            .wrapping_add(1442695040888963407);
        [*byte, ..] = x.to_be_bytes();
    }
    bytes
}

// FNV-1a of 64 bits.
pub fn sum(bytes: &[u8]) -> u64 {
    bytes.iter().fold(0xcbf2_9ce4_8422_2325, |sum: u64, byte| {
        (sum ^ u64::from(*byte)).wrapping_mul(0x0000_0100_0000_01b3)
    })
}
