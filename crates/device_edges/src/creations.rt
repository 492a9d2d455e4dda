// Creations.
use crate::configs;
use crate::host::Host;
use options::DirectionConfig;
use queue_calls::Table;
use std::io;
use std::io::Write;

// The largest capacity.
pub const LARGEST: usize = 1048576;

// The name of a case has the numbers of all refusals that are due, in the order 29, 24, 30, 23: the first is to come.
pub fn run<W: Write + Drop>(host: &mut Host<W>) -> io::Result<()> {
    let wrong = configs::wrong();
    let delay = configs::delay(5.0);
    let short = Some(Table::Win);
    create(host, "create 29 24 23", wrong, LARGEST + 1, short)?;
    // No memory is too short for a capacity of 0.
    create(host, "create 29 24", wrong, 0, short)?;
    create(host, "create 24", delay, 0, short)?;
    create(host, "create 24 23", delay, LARGEST + 1, None)?;
    create(host, "create 23", delay, LARGEST, None)?;
    create(host, "create none", delay, 2, None)?;
    over_short_tables(host)
}

// Capacity 2 over tables of which one after the other is short.
fn over_short_tables<W: Write + Drop>(host: &mut Host<W>) -> io::Result<()> {
    for (number, table) in (1u32..).zip(Table::ALL.iter()) {
        let name = format!(in host.alloc; "table {number} short")?;
        create(host, &name, configs::delay(5.0), 2, Some(*table))?;
    }
    Ok(())
}

// What a refused creation gives is a device of the default settings, the generator of seed 0, capacity 1 and slots of 2,048 bytes.
fn create<W: Write + Drop>(
    host: &mut Host<W>,
    name: &str,
    config: DirectionConfig,
    cap: usize,
    short: Option<Table>,
) -> io::Result<()> {
    host.case(name, |host| {
        host.create(config, cap, short)?;
        host.tell_device()
    })
}
