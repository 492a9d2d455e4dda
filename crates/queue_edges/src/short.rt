// Refusal 23: each table by itself is short by one entry, the store by one byte.
use crate::case::Case;
use crate::lines::Lines;
use crate::states;
use queue_calls::Table;
use std::io;
use std::io::Write;

pub fn tables<W: Write>(lines: &mut Lines<W>) -> io::Result<()> {
    for table in Table::ALL {
        one(lines, table)?;
    }
    Ok(())
}

// A question for the next due is lent no table but win and dues.
fn one<W: Write>(lines: &mut Lines<W>, table: Table) -> io::Result<()> {
    let name = format!(in lines.alloc; "{table} short")?;
    let case = Case {
        short: Some(table),
        ..Case::new(&name, states::empty(5))
    };
    case.create(lines, 2)?;
    case.push(lines, 0.0, 0.0, 1)?;
    case.release(lines, 0.0)?;
    case.next_due(lines)
}
