// Slots of several widths: creations, copies that fill their slots, and states whose width was altered.
use crate::case::Case;
use crate::lines::Lines;
use crate::states;
use queue::{ImpairQueue, Packet};
use queue_calls::{Call, Memory, Part, Table};
use script::payload;
use std::alloc::{AllocError, Global};
use std::io;
use std::io::Write;

// The copies that there is room for, and the bytes of the store for them where it has 9,216 for each.
const COPIES: u32 = 3;

const MOST_BYTES: usize = 27648;

// Those at the ends of the range and beside 2,048, and some between.
const WIDTHS: [u16; 10] = [64, 65, 200, 1500, 2047, 2048, 2049, 9000, 9215, 9216];

// All of the store, and the store without its last byte.
const WHOLE: Option<Table> = None;

const SHORT: Option<Table> = Some(Table::Store);

// The name of a case has the numbers of all refusals that are due, in the order 24, 30, 23; a refused creation gives slots of 2,048 bytes.
pub fn creations<W: Write>(lines: &mut Lines<W>) -> io::Result<()> {
    let mut memory = Memory::new(lines.alloc, COPIES as usize, MOST_BYTES)?;
    for (name, cap, width) in [
        ("24 30 23", 1048577, 9217),
        ("24 30", 0, 63),
        ("24 23", 1048577, 64),
        ("30 23", 4, 63),
        ("30 23", 4, 9217),
        ("30", 3, 0),
        ("30", 3, 63),
        ("30", 2, 9217),
        ("30 23", 3, 4294967360),
        ("30 23", 3, usize::MAX),
        ("23", 4, 9216),
        ("none", 3, 64),
        ("none", 3, 9216),
    ] {
        let mut queue = states::full(5);
        let answer = Call::Create { cap, width }.make(&mut queue, &mut memory.lent());
        write!(lines.out, "create {name}, {cap} of {width}")?;
        lines.tell(answer, &memory, queue)?;
        writeln!(lines.out, " width {}", queue.width)?;
    }
    Ok(())
}

pub fn slots<W: Write>(lines: &mut Lines<W>) -> io::Result<()> {
    for width in WIDTHS {
        fill_slots(lines, width)?;
    }
    Ok(())
}

// Three copies fill a store of three slots to its last byte, and one more takes the second's slot; each leaves with all of its bytes. Among them come a packet
// of one byte more, and calls over a store of one byte less.
fn fill_slots<W: Write>(lines: &mut Lines<W>, width: u16) -> io::Result<()> {
    let slot = width as usize;
    let first = filled(lines.alloc, slot, 1)?;
    let second = filled(lines.alloc, slot, 2)?;
    let third = filled(lines.alloc, slot, 3)?;
    let fourth = filled(lines.alloc, slot, 4)?;
    let long = filled(lines.alloc, slot + 1, 5)?;
    let create = Call::Create {
        cap: COPIES as usize,
        width: slot,
    };
    let calls = [
        (create, SHORT),
        (create, WHOLE),
        (Call::Push(due(3.0), &first), WHOLE),
        (Call::Push(due(1.0), &second), WHOLE),
        (Call::Push(due(2.0), &long), WHOLE),
        (Call::Push(due(2.0), &third), SHORT),
        (Call::Push(due(2.0), &third), WHOLE),
        (Call::Release(3.0), SHORT),
        (Call::Release(3.0), WHOLE),
        (Call::Push(due(1.0), &fourth), WHOLE),
        (Call::Release(3.0), WHOLE),
        (Call::Release(3.0), WHOLE),
        (Call::Release(3.0), WHOLE),
    ];
    make(lines, width, &calls)
}

// The bytes of a copy follow from the seed.
fn filled(alloc: Global, n: usize, seed: u64) -> Result<Vec<u8>, AllocError> {
    let mut bytes = vec![in alloc; 0; n]?;
    payload::fill(&mut bytes, seed);
    Ok(bytes)
}

fn due(due_ms: f64) -> Packet {
    Packet {
        due_ms,
        arrival_ms: 0.0,
        route: 7,
        copy_id: 1,
        duplicated: false,
    }
}

// Makes one call after the other over memory for just three slots, or that without the last byte.
fn make<W: Write>(
    lines: &mut Lines<W>,
    width: u16,
    calls: &[(Call<'_>, Option<Table>)],
) -> io::Result<()> {
    let mut memory = Memory::new(
        lines.alloc,
        COPIES as usize,
        COPIES as usize * width as usize,
    )?;
    let mut queue = states::full(5);
    for (call, short) in calls {
        let part = Part {
            start: 0,
            entries: COPIES,
            width: width as u32,
            short: *short,
        };
        let answer = call.make(&mut queue, &mut memory.part(part));
        let over = if short.is_some() { ", store short" } else { "" };
        write!(lines.out, "width {width}{over}")?;
        lines.tell(answer, &memory, queue)?;
        writeln!(lines.out, " width {}", queue.width)?;
    }
    Ok(())
}

// The slot width was altered, and at last the capacity too: 23 where memory is too short for them, and else 26. The width lets through the bytes of the copy.
pub fn altered<W: Write>(lines: &mut Lines<W>) -> io::Result<()> {
    let none = ImpairQueue {
        cap: 0,
        ..states::of_width(u32::MAX)
    };
    let most = ImpairQueue {
        cap: u32::MAX,
        ..states::of_width(u32::MAX)
    };
    for (name, queue, room, n) in [
        ("width 0", states::of_width(0), 2048, 0),
        ("width 63", states::of_width(63), 2048, 63),
        ("width 9217", states::of_width(9217), 9217, 9217),
        ("width 9217 over 9216", states::of_width(9217), 9216, 9217),
        ("width 2^32 - 1", states::of_width(u32::MAX), 9217, 9217),
        ("capacity 0 width 2^32 - 1", none, 9217, 9217),
        ("capacity and width 2^32 - 1", most, 9217, 9217),
    ] {
        let case = Case {
            room,
            ..Case::new(name, queue)
        };
        case.push(lines, 0.0, 0.0, n)?;
        case.release(lines, 0.0)?;
        case.next_due(lines)?;
        case.drain(lines)?;
    }
    Ok(())
}
