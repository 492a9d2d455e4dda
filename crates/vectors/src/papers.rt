// Outputs of the papers' generators that were given to the project: neither the port nor the Rust made them.
use crate::generators;
use draws::Rng;
use std::io;
use std::io::Write;

// The first five outputs of SplitMix64 from seed 1234567: each is mix of its state and salt 0.
pub fn splitmix64<W: Write>(out: &mut W) -> io::Result<()> {
    writeln!(out, "splitmix64 1234567")?;
    let outputs = generators::first(1234567u64, |state| {
        (
            state.wrapping_add(0x9E37_79B9_7F4A_7C15),
            draws::mix(state, 0),
        )
    });
    show(out, &outputs)
}

// The upper 32 bits of the first five outputs of xorshift64* from seed 1234567.
pub fn xorshift64star<W: Write>(out: &mut W) -> io::Result<()> {
    writeln!(out, "xorshift64* 1234567")?;
    let outputs = generators::first(Rng::new(1234567), |rng| {
        let (after, value) = rng.next_u64();
        (after, value / 0x1_0000_0000)
    });
    show(out, &outputs)
}

fn show<W: Write>(out: &mut W, outputs: &[u64; 5]) -> io::Result<()> {
    for output in outputs {
        writeln!(out, "{output}")?;
    }
    Ok(())
}
