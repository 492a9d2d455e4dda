// Creations with slots of 2,048 bytes: 24 comes before 23, and a refused one gives a queue of capacity 1 and of that width.
use crate::case::Case;
use crate::lines::Lines;
use crate::states;
use queue_calls::Table;
use std::io;
use std::io::Write;

pub fn capacities<W: Write>(lines: &mut Lines<W>) -> io::Result<()> {
    let queue = states::empty(0);
    let over_short = Case {
        short: Some(Table::Store),
        ..Case::new("0 over short memory", queue)
    };
    over_short.create(lines, 0)?;
    for (name, cap) in [
        ("0", 0),
        ("1", 1),
        ("2", 2),
        ("3", 3),
        ("1048576", 1048576),
        ("1048577", 1048577),
        ("2^32 + 1", 4294967297),
        ("2^64 - 1", usize::MAX),
    ] {
        Case::new(name, queue).create(lines, cap)?;
    }
    Ok(())
}
