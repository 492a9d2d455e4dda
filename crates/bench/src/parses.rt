// An option text is read again and again, and what was read is summed up, so that the work cannot be left out.
use std::io;
use std::io::Write;

// A short text is read more often than a long one: some twenty million bytes in all, with a hundred more for each reading.
pub fn run<W: Write>(text: &[u8], out: &mut W) -> io::Result<()> {
    let turns = 20000000 / (text.len() as u64 + 100);
    let mut taken: u64 = 0;
    let mut sum: u64 = 0;
    for _ in 0..turns {
        let (config, answer) = options::parse_config(text);
        taken = taken.wrapping_add(u64::from(answer.is_ok()));
        sum = sum.wrapping_add(config.seed);
        sum = sum.wrapping_add(config.c2s.blackout_count as u64);
    }
    writeln!(out, "{turns}\n{taken}\n{sum}")
}
