// The lines that oracle/src/draws.rs prints of the Rust source.
use crate::floats::FLOATS;
use crate::fold::Fold;
use crate::generators;
use draws::Rng;
use output::Bits;
use std::io::Write;
use std::{io, num};

const SEEDS: [u64; 12] = [
    0,
    1,
    2,
    1234567,
    0xFFFF_FFFF,
    0x1_0000_0000,
    0x20_0000_0000_0000,
    0x61C8_8646_80B5_83EB,
    0x7FFF_FFFF_FFFF_FFFF,
    0x8000_0000_0000_0000,
    0x9E37_79B9_7F4A_7C15,
    0xFFFF_FFFF_FFFF_FFFF,
];

const SALTS: [u64; 6] = [
    0,
    1,
    2,
    0xFFFF_FFFF,
    0x8000_0000_0000_0000,
    0xFFFF_FFFF_FFFF_FFFF,
];

pub fn draws<W: Write>(out: &mut W) -> io::Result<()> {
    for seed in SEEDS {
        of_seed(out, seed)?;
    }
    Ok(())
}

// The first outputs and draws of a seed, its direction seeds, and a long run.
fn of_seed<W: Write>(out: &mut W, seed: u64) -> io::Result<()> {
    let outputs: [u64; 8] = generators::first(Rng::new(seed), |rng| rng.next_u64());
    line(out, "next_u64", seed, &outputs)?;
    let draws: [u64; 8] = generators::first(Rng::new(seed), |rng| {
        let (after, draw) = rng.next_f64();
        (after, num::f64_to_bits_with_nan(draw))
    });
    line(out, "next_f64", seed, &draws)?;
    line(
        out,
        "direction_seed",
        seed,
        &SALTS.map(|salt| draws::direction_seed(seed, salt)),
    )?;
    line(out, "long_run", seed, &[long_run(seed)])
}

// A line of numbers in hexadecimal.
fn line<W: Write>(out: &mut W, name: &str, seed: u64, numbers: &[u64]) -> io::Result<()> {
    write!(out, "{name} {seed:016x}")?;
    for number in numbers {
        write!(out, " {number:016x}")?;
    }
    writeln!(out)
}

// A generator, and the number that its draws so far were folded into.
#[derive(Clone, Copy)]
struct Run {
    rng: Rng,
    fold: Fold,
}

// A million outputs, draws and direction seeds, folded into one number.
fn long_run(seed: u64) -> u64 {
    let mut run = Run {
        rng: Rng::new(seed),
        fold: Fold(0),
    };
    for _ in 0..1000000u32 {
        run.step();
    }
    run.fold.0
}

impl Run {
    // Folds in the direction seed of the next output, with the fold as its salt, and the bits of the draw after it.
    fn step(&mut self) {
        let (rng, output) = self.rng.next_u64();
        let (rng, draw) = rng.next_f64();
        self.rng = rng;
        self.fold = Fold(draws::direction_seed(output, self.fold.0)).with(draw);
    }
}

// The maximum and the minimum of every pair of the floats.
pub fn extremes<W: Write>(out: &mut W) -> io::Result<()> {
    for x in FLOATS {
        extremes_with(out, x)?;
    }
    Ok(())
}

// Nothing for a pair of zeros, of which Rust may give either.
fn extremes_with<W: Write>(out: &mut W, x: f64) -> io::Result<()> {
    for y in FLOATS {
        if x != 0.0 || y != 0.0 {
            write!(out, "max_min {} {}", Bits(x), Bits(y))?;
            write!(out, " {}", Bits(numbers::maximum(x, y)))?;
            writeln!(out, " {}", Bits(numbers::minimum(x, y)))?;
        }
    }
    Ok(())
}
