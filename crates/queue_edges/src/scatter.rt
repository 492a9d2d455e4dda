// Memory is altered: all of it is drawn anew, or one entry of each table of the tree and one of the free slots.
use queue_calls::Memory;
use script::payload;

pub fn some(memory: &mut Memory, seed: u64) {
    match draws::mix(seed, 10) % 4 {
        0 => all(memory, seed),
        1 => one_of_keys(memory, seed),
        _ => {}
    }
}

fn all(memory: &mut Memory, seed: u64) {
    fill(&mut memory.win, draws::mix(seed, 11), word_of);
    fill(&mut memory.free, draws::mix(seed, 12), word_of);
    fill(&mut memory.dues, draws::mix(seed, 13), float_of);
    fill(&mut memory.seqs, draws::mix(seed, 14), long_of);
    fill(&mut memory.arrivals, draws::mix(seed, 15), float_of);
    fill(&mut memory.routes, draws::mix(seed, 16), long_of);
    fill(&mut memory.copy_ids, draws::mix(seed, 17), word_of);
    fill(&mut memory.lengths, draws::mix(seed, 18), word_of);
    payload::fill(&mut memory.store, draws::mix(seed, 19));
}

// Every entry of a table is drawn.
fn fill<T: Copy, F: Fn(u64) -> T>(table: &mut [T], seed: u64, entry_of: F)
    requires { F.IsAlwaysCallable entry_of }
{
    for (i, entry) in table.iter_mut().enumerate() {
        *entry = entry_of(draws::mix(seed, i as u64));
    }
}

fn one_of_keys(memory: &mut Memory, seed: u64) {
    let at = (draws::mix(seed, 20) % 24) as usize;
    tables::set(&mut memory.win, at, word_of(draws::mix(seed, 21)));
    tables::set(&mut memory.free, at, word_of(draws::mix(seed, 22)));
    tables::set(&mut memory.dues, at, float_of(draws::mix(seed, 23)));
    tables::set(&mut memory.seqs, at, long_of(draws::mix(seed, 24)));
}

// Most are small enough for a slot.
pub fn word_of(n: u64) -> u32 {
    match n % 16 {
        0 => u32::MAX,
        1 => (n / 16 % 0x1_0000_0000) as u32,
        _ => (n / 16 % 10) as u32,
    }
}

fn long_of(n: u64) -> u64 {
    match n % 16 {
        0 => u64::MAX,
        1 => 0x1000_0000_0000_0000,
        2 => n,
        _ => n / 16 % 20,
    }
}

pub fn float_of(n: u64) -> f64 {
    match n % 16 {
        0 => f64::NAN,
        1 => f64::INFINITY,
        2 => f64::NEG_INFINITY,
        3 => -0.0,
        4 => 9007199254740994.0,
        _ => numbers::float_of(n / 16 % 20) * 0.5,
    }
}
