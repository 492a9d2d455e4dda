// The bytes of a slot: those out of range are none.
use crate::lines::Lines;
use crate::states::WIDTH;
use script::payload;
use std::alloc::{AllocError, Global};
use std::io;
use std::io::Write;

// A store of eight slots of 2,048 bytes, or the front of one.
pub fn ends<W: Write>(lines: &mut Lines<W>) -> io::Result<()> {
    let space = filled(lines.alloc)?;
    for (size, slot, n) in [
        (16384, 0, 0),
        (16384, 0, 2048),
        (16384, 0, 2049),
        (16384, 7, 2048),
        (16384, 8, 0),
        (16384, 8, 1),
        (16384, u32::MAX, 2048),
        (16384, 0, usize::MAX),
        (16383, 7, 2048),
        (16383, 7, 2047),
        (0, 0, 0),
        (0, 0, 1),
    ] {
        let bytes = queue::payload(values::front(&space, size), WIDTH, slot, n);
        write!(lines.out, "payload store {size} slot {slot} length {n}: ")?;
        writeln!(lines.out, "{} {:016x}", bytes.len(), payload::sum(bytes))?;
    }
    Ok(())
}

// The ends of slots of other widths; a width that no slot can have is answered too.
pub fn widths<W: Write>(lines: &mut Lines<W>) -> io::Result<()> {
    let space = filled(lines.alloc)?;
    for (width, size, slot, n) in [
        (64, 16384, 255, 64),
        (64, 16384, 255, 65),
        (64, 16384, 256, 1),
        (64, 16383, 255, 64),
        (65, 16380, 251, 65),
        (65, 16379, 251, 65),
        (9216, 16384, 0, 9216),
        (9216, 16384, 0, 9217),
        (9216, 16384, 1, 7168),
        (9216, 16384, 1, 7169),
        (0, 16384, u32::MAX, 0),
        (0, 16384, 0, 1),
        (u32::MAX, 16384, u32::MAX, 4294967295),
    ] {
        let bytes = queue::payload(values::front(&space, size), width, slot, n);
        write!(lines.out, "payload width {width} store {size} slot {slot} ")?;
        let (count, sum) = (bytes.len(), payload::sum(bytes));
        writeln!(lines.out, "length {n}: {count} {sum:016x}")?;
    }
    Ok(())
}

fn filled(alloc: Global) -> Result<Vec<u8>, AllocError> {
    let mut space = vec![in alloc; 0; 16384]?;
    payload::fill(&mut space, 1);
    Ok(space)
}

// Of 5,000 slots, widths, lengths and stores that are drawn, how many do not give the part that they should.
pub fn many<W: Write>(lines: &mut Lines<W>) -> io::Result<()> {
    let space = filled(lines.alloc)?;
    let wrong = (0..5000u64).filter(|turn| !is_right(&space, *turn)).count();
    writeln!(lines.out, "payload drawn: wrong {wrong}")
}

fn is_right(space: &[u8], turn: u64) -> bool {
    let store = values::front(space, (draws::mix(turn, 1) % 16385) as usize);
    let slot = slot_of(draws::mix(turn, 2));
    let width = width_of(draws::mix(turn, 4));
    let n = length_of(draws::mix(turn, 3), width);
    let bytes = queue::payload(store, width as u32, slot, n);
    if (width as usize) < n {
        return bytes.is_empty();
    }
    let start = slot as usize * width as usize;
    bytes == store.get(start..start + n).unwrap_or(&[])
}

fn slot_of(n: u64) -> u32 {
    match n % 16 {
        0 => (n / 16 % 0x1_0000_0000) as u32,
        _ => (n / 16 % 9) as u32,
    }
}

fn width_of(n: u64) -> u16 {
    match n % 8 {
        0 => 64,
        1 => 65,
        2 => 200,
        3 => 9216,
        _ => 2048,
    }
}

// At times more than a slot has.
fn length_of(n: u64, width: u16) -> usize {
    match n % 16 {
        0 => n as usize,
        1 => width as usize,
        _ => (n / 16 % (width as u64 + 2)) as usize,
    }
}
