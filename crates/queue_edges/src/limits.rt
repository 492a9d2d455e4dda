// The limits of the refusals by 21, 22, 27, 25 and 26.
use crate::case::Case;
use crate::lines::Lines;
use crate::states;
use crate::states::TOO_MANY;
use std::io;
use std::io::Write;

// As the arrival of a copy and as the instant of a release.
pub fn instants<W: Write>(lines: &mut Lines<W>) -> io::Result<()> {
    for (name, t) in [
        ("instant 0", 0.0),
        ("instant -0", -0.0),
        ("instant -1", -1.0),
        ("instant 2^53", 9007199254740992.0),
        ("instant 2^53 + 2", 9007199254740994.0),
        ("instant inf", f64::INFINITY),
        ("instant nan", f64::NAN),
    ] {
        let case = Case::new(name, states::empty(5));
        case.push(lines, 0.0, t, 1)?;
        case.release(lines, t)?;
    }
    Ok(())
}

pub fn copies<W: Write>(lines: &mut Lines<W>) -> io::Result<()> {
    for (name, due_ms, n) in [
        ("length 0", 0.0, 0),
        ("length 2048", 0.0, 2048),
        ("length 2049", 0.0, 2049),
        ("due -0", -0.0, 1),
        ("due -inf", f64::NEG_INFINITY, 1),
        ("due inf", f64::INFINITY, 1),
        ("due nan", f64::NAN, 1),
    ] {
        Case::new(name, states::empty(5)).push(lines, due_ms, 0.0, n)?;
    }
    Ok(())
}

// Every call on the state.
pub fn counters<W: Write>(lines: &mut Lines<W>) -> io::Result<()> {
    for (name, queue) in [
        ("next seq 2^60 - 1", states::empty(TOO_MANY - 1)),
        ("next seq 2^60", states::empty(TOO_MANY)),
        ("next seq 2^64 - 1", states::empty(u64::MAX)),
        ("held 3 of 2", states::with_held(3, 5)),
    ] {
        let case = Case::new(name, queue);
        case.push(lines, 0.0, 0.0, 1)?;
        case.release(lines, 0.0)?;
        case.next_due(lines)?;
        case.drain(lines)?;
    }
    Ok(())
}
