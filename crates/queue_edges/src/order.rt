// The order of refusals. The name of a case has the numbers of all refusals that are due, of which the first is to come.
use crate::case::Case;
use crate::lines::Lines;
use crate::states;
use crate::states::TOO_MANY;
use queue_calls::Table;
use std::io;
use std::io::Write;

pub fn pushes<W: Write>(lines: &mut Lines<W>) -> io::Result<()> {
    let full = states::full(TOO_MANY);
    let over_short = Case {
        short: Some(Table::Store),
        ..Case::new("23 21 22 27 25 28", full)
    };
    over_short.push(lines, f64::NAN, f64::NAN, 2049)?;
    for (name, queue, due_ms, arrival_ms, n) in [
        ("21 22 27 25 28", full, f64::NAN, f64::NAN, 2049),
        ("22 27 25 28", full, f64::NAN, 0.0, 2049),
        ("27 25 28", full, f64::NAN, 0.0, 2048),
        ("25 28", full, 0.0, 0.0, 2048),
        ("25 26 28", states::altered(TOO_MANY), 0.0, 0.0, 2048),
        ("26 28", states::altered(5), 0.0, 0.0, 2048),
        ("28", states::full(5), 0.0, 0.0, 2048),
        ("none", states::empty(5), 0.0, 0.0, 2048),
    ] {
        Case::new(name, queue).push(lines, due_ms, arrival_ms, n)?;
    }
    Ok(())
}

pub fn releases<W: Write>(lines: &mut Lines<W>) -> io::Result<()> {
    let full = states::full(TOO_MANY);
    let over_short = Case {
        short: Some(Table::Store),
        ..Case::new("23 21 25", full)
    };
    over_short.release(lines, f64::NAN)?;
    for (name, queue, now_ms) in [
        ("21 25", full, f64::NAN),
        ("25", full, 0.0),
        ("25 26", states::altered(TOO_MANY), 0.0),
        ("26", states::altered(5), 0.0),
        ("none", states::empty(5), 0.0),
    ] {
        Case::new(name, queue).release(lines, now_ms)?;
    }
    Ok(())
}

// A question for the next due is lent two tables, so that no other one is too short.
pub fn questions<W: Write>(lines: &mut Lines<W>) -> io::Result<()> {
    let full = states::full(TOO_MANY);
    for (name, queue, short) in [
        ("23 25, win short", full, Some(Table::Win)),
        ("23 25, dues short", full, Some(Table::Dues)),
        ("25", full, None),
        ("25 26", states::altered(TOO_MANY), None),
        ("26", states::altered(5), None),
        ("none, store short", states::empty(5), Some(Table::Store)),
    ] {
        let case = Case {
            short,
            ..Case::new(name, queue)
        };
        case.next_due(lines)?;
    }
    Ok(())
}

// A drain is lent no table, so that 23 is never due.
pub fn drains<W: Write>(lines: &mut Lines<W>) -> io::Result<()> {
    for (name, queue) in [
        ("25", states::full(TOO_MANY)),
        ("25 26", states::altered(TOO_MANY)),
        ("26", states::altered(5)),
        ("none", states::full(5)),
    ] {
        Case::new(name, queue).drain(lines)?;
    }
    Ok(())
}
