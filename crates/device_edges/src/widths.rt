// Slots of several widths.
use crate::configs;
use crate::creations::LARGEST;
use crate::host::Host;
use crate::packets::{MORE, OTHERS};
use options::DirectionConfig;
use queue_calls::Table;
use std::io;
use std::io::Write;

// Those at the ends of the range and beside 2,048, and some between.
const WIDTHS: [u16; 10] = [64, 65, 200, 1500, 2047, 2048, 2049, 9000, 9215, 9216];

pub fn run<W: Write + Drop>(host: &mut Host<W>) -> io::Result<()> {
    creations(host)?;
    slots(host)?;
    altered_widths(host)?;
    dropped(host)
}

// The name of a case has the numbers of all refusals that are due, in the order 29, 24, 30, 23; a refused creation gives slots of 2,048 bytes.
fn creations<W: Write + Drop>(host: &mut Host<W>) -> io::Result<()> {
    let wrong = configs::wrong();
    let delay = configs::delay(5.0);
    for (name, config, cap, width) in [
        ("create 29 24 30 23", wrong, LARGEST + 1, 9217),
        ("create 29 30 23", wrong, 3, 63),
        ("create 24 30 23", delay, LARGEST + 1, 63),
        ("create 30 23", delay, 3, 9217),
        ("create 30, width 63", delay, 2, 63),
        ("create 30, width 9217", delay, 2, 9217),
        ("create 23, width 9216", delay, 3, 9216),
        ("create none, width 64", delay, 2, 64),
        ("create none, width 9216", delay, 2, 9216),
    ] {
        host.case(name, |host| {
            host.create_of_width(config, cap, width, None)?;
            host.tell_device()?;
            host.tell_width()
        })?;
    }
    Ok(())
}

fn slots<W: Write + Drop>(host: &mut Host<W>) -> io::Result<()> {
    for width in WIDTHS {
        fill_slots(host, width)?;
    }
    Ok(())
}

// Two packets fill a store of two slots to its last byte, and leave with all of their bytes. Among them come a packet of one byte more, and calls over a store
// of one byte less.
fn fill_slots<W: Write + Drop>(host: &mut Host<W>, width: u16) -> io::Result<()> {
    let name = format!(in host.alloc; "width {width}")?;
    let slot = width as usize;
    let (packet, longer) = (values::front(&MORE, slot), values::front(&MORE, slot + 1));
    let other = values::front(&OTHERS, slot);
    let short = Some(Table::Store);
    host.case(&name, |host| {
        host.create_of_width(DirectionConfig::default(), 2, width, short)?;
        host.tell_width()?;
        host.create_of_width(DirectionConfig::default(), 2, width, None)?;
        host.tell_width()?;
        host.arrive(0.0, packet)?;
        host.arrive(0.0, longer)?;
        host.short = short;
        host.arrive(0.0, other)?;
        host.release(0.0)?;
        host.short = None;
        host.arrive(0.0, other)?;
        host.release(0.0)?;
        host.release(0.0)?;
        host.tell_kept()
    })
}

// The width was altered: 23 where memory is too short for it; of the packets that the width lets through 22 where they are too long for the engine; else 26.
fn altered_widths<W: Write + Drop>(host: &mut Host<W>) -> io::Result<()> {
    for (name, cap, width, n) in [
        ("altered width 0, length 0", 1, 0, 0),
        ("altered width 0, length 1", 1, 0, 1),
        ("altered width 63, length 63", 1, 63, 63),
        ("altered width 9217, length 9216", 1, 9217, 9216),
        ("altered width 9217, length 9217", 1, 9217, 9217),
        ("altered width 9217, length 9218", 1, 9217, 9218),
        ("altered width 9217, capacity 2", 2, 9217, 9216),
        ("altered width 2^32 - 1", 1, u32::MAX, 9217),
        (
            "altered width and capacity 2^32 - 1",
            u32::MAX,
            u32::MAX,
            9217,
        ),
    ] {
        host.case(name, |host| {
            host.create_of_width(DirectionConfig::default(), 2, 9216, None)?;
            host.device.queue.cap = cap;
            host.device.queue.width = width;
            host.arrive(0.0, values::front(&MORE, n))?;
            host.release(0.0)?;
            host.teardown()
        })?;
    }
    Ok(())
}

// A packet that the engine drops never comes to the queue, of which the width was altered; the one after it does.
fn dropped<W: Write + Drop>(host: &mut Host<W>) -> io::Result<()> {
    host.case("altered width 9217, dropped", |host| {
        host.create_of_width(configs::blackout(), 1, 9216, None)?;
        host.device.queue.width = 9217;
        host.arrive(0.0, values::front(&MORE, 9216))?;
        host.arrive(0.0, values::front(&MORE, 9217))?;
        host.report()?;
        host.arrive(5.0, values::front(&MORE, 9216))
    })
}
