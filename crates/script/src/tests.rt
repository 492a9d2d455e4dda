// What no contract says of whole lines and their option texts: that a call succeeds, what is handed to a closure, when output is flushed, and that a failure is
// told.
use crate::{calls, hex, lines, payload};
use std::alloc::{AllocError, Global};
use std::io;
use std::io::{ErrorKind, Read, Write};
use std::test::Fail;

// The first two are test vectors of RFC 4648, section 10, in small letters.
#[test]
fn texts_are_decoded(rt: HostRuntime) -> Result<(), Fail> {
    let cases = [
        ("666f6f626172", Some("foobar")),
        ("", Some("")),
        ("666f6", None),
        ("6g", None),
        ("6F", None),
    ];
    for (digits, text) in cases {
        let decoded = hex::decode(rt.alloc(), digits.as_bytes())?;
        assert_eq!(rt; decoded.as_deref(), text.map(str::as_bytes), "of {digits}");
    }
    Ok(())
}

// A line of two bytes, an empty one, one of 70,000 and one of four, each but the last ended by `end`.
fn four_lines(alloc: Global, end: &[u8]) -> Result<Vec<u8>, AllocError> {
    let mut input = b"ab".to_vec(alloc)?;
    input.extend_from_slice(end)?;
    input.extend_from_slice(end)?;
    input.extend_from_slice(&vec![in alloc; b'c'; 70_000]?)?;
    input.extend_from_slice(end)?;
    input.extend_from_slice(b"last")?;
    Ok(input)
}

#[test]
fn lines_are_whole(rt: HostRuntime) -> Result<(), Fail> {
    let bytes = four_lines(rt.alloc(), b"\n")?;
    let mut input = bytes.as_slice();
    let mut line = Vec::new(rt.alloc());
    for length in [Some(2), Some(0), Some(70_000), Some(4), None] {
        let there = lines::next_line(&mut input, &mut line)?;
        assert_eq!(rt; there.then_some(line.len()), length);
    }
    Ok(())
}

// Writes a line and a semicolon behind it.
fn echo<W: Write>(line: &[u8], out: &mut W) -> io::Result<()> {
    out.write_all(line)?;
    out.write_all(b";")
}

#[test]
fn lines_are_answered(rt: HostRuntime) -> Result<(), Fail> {
    let bytes = four_lines(rt.alloc(), b"\n")?;
    let mut out = Vec::new(rt.alloc());
    lines::answer_lines(
        rt.alloc(),
        bytes.as_slice(),
        &mut out,
        |line, out| echo(line, out),
    )?;
    let mut want = four_lines(rt.alloc(), b";")?;
    want.push(b';')?;
    assert_eq!(rt; out, want);
    Ok(())
}

#[test]
fn calls_are_answered(rt: HostRuntime) -> Result<(), Fail> {
    let bytes = four_lines(rt.alloc(), b"\n")?;
    let mut out = Vec::new(rt.alloc());
    lines::answer_calls(rt.alloc(), bytes.as_slice(), &mut out, |line, out| {
        echo(line, out)?;
        Ok(!line.is_empty())
    })?;
    let mut want = b"ab;\n;bad line\n".to_vec(rt.alloc())?;
    want.extend_from_slice(&vec![in rt.alloc(); b'c'; 70_000]?)?;
    want.extend_from_slice(b";\nlast;\n")?;
    assert_eq!(rt; out, want);
    Ok(())
}

#[test]
fn many_lines_are_answered(rt: HostRuntime) -> Result<(), Fail> {
    let bytes = vec![in rt.alloc(); b'\n'; 10_000]?;
    let mut out = Vec::new(rt.alloc());
    lines::answer_lines(
        rt.alloc(),
        bytes.as_slice(),
        &mut out,
        |line, out| echo(line, out),
    )?;
    assert_eq!(rt; out, vec![in rt.alloc(); b';'; 10_000]?);
    Ok(())
}

// Input that fails behind three lines and a half, which it gives in two parts.
#[derive(Drop)]
struct Failing {
    part: u32,
}

impl Read for Failing {
    fn read(&mut self, buf: &mut [u8]) -> io::Result<usize> {
        let mut given = match self.part {
            0 => b"ab\ncd\n".as_slice(),
            1 => b"ef\nla".as_slice(),
            _ => return Err(ErrorKind::BrokenPipe.into()),
        };
        self.part += 1;
        given.read(buf)
    }
}

// Output that counts its bytes and its flushes, and how many bytes there were at the last of these.
#[derive(Clone, Copy, Debug, PartialEq, Eq)]
struct Counted {
    bytes: u64,
    flushed: u64,
    flushes: u64,
}

impl Counted {
    fn new() -> Self {
        Counted {
            bytes: 0,
            flushed: 0,
            flushes: 0,
        }
    }
}

impl Write for Counted {
    fn write(&mut self, buf: &[u8]) -> io::Result<usize> {
        self.bytes = self.bytes.saturating_add(buf.len() as u64);
        Ok(buf.len())
    }

    fn flush(&mut self) -> io::Result<()> {
        self.flushed = self.bytes;
        self.flushes = self.flushes.saturating_add(1);
        Ok(())
    }
}

fn kind_of(told: io::Result<()>) -> Option<ErrorKind> {
    told.err().map(|error| error.kind())
}

// The lines before the failure are answered, and flushed where more input is waited for: behind the second line and behind the third.
#[test]
fn failures_are_told(rt: HostRuntime) {
    let mut out = Counted::new();
    let input = Failing { part: 0 };
    let told = lines::answer_lines(rt.alloc(), input, &mut out, |line, out| echo(line, out));
    assert_eq!(rt; kind_of(told), Some(ErrorKind::BrokenPipe));
    assert_eq!(rt;
        out,
        Counted {
            bytes: 9,
            flushed: 9,
            flushes: 2
        }
    );
}

#[test]
fn failures_of_calls_are_told(rt: HostRuntime) {
    let mut out = Counted::new();
    let input = Failing { part: 0 };
    let told = lines::answer_calls(rt.alloc(), input, &mut out, |line, out| {
        echo(line, out)?;
        Ok(true)
    });
    assert_eq!(rt; kind_of(told), Some(ErrorKind::BrokenPipe));
    assert_eq!(rt;
        out,
        Counted {
            bytes: 12,
            flushed: 12,
            flushes: 2
        }
    );
}

// An answer that fails is the last.
#[test]
fn failed_answers_are_told(rt: HostRuntime) {
    let mut out = Counted::new();
    let input = b"ab\ncd\n".as_slice();
    let told = lines::answer_lines(rt.alloc(), input, &mut out, |line, out| {
        echo(line, out)?;
        Err(ErrorKind::BrokenPipe.into())
    });
    assert_eq!(rt; kind_of(told), Some(ErrorKind::BrokenPipe));
    assert_eq!(rt; out.bytes, 3);
}

// A call is told by the sum of its option text, or of its line.
#[derive(Clone, Copy, Debug, PartialEq, Eq)]
enum Told {
    Text(u64),
    Words(u64),
}

fn call_told(alloc: Global, line: &[u8]) -> Result<Option<Told>, AllocError> {
    calls::call_of(
        alloc,
        line,
        |text| Told::Text(payload::sum(&text)),
        |line| Some(Told::Words(payload::sum(line))),
    )
}

#[test]
fn calls_are_read(rt: HostRuntime) -> Result<(), Fail> {
    let cases = [
        ("options 666f6f", Some(Told::Text(payload::sum(b"foo")))),
        ("options ", Some(Told::Text(payload::sum(b"")))),
        ("options 666f6", None),
        ("options", Some(Told::Words(payload::sum(b"options")))),
        ("options 66 6f", None),
        ("option 66", Some(Told::Words(payload::sum(b"option 66")))),
        ("rebind 0", Some(Told::Words(payload::sum(b"rebind 0")))),
    ];
    for (line, call) in cases {
        assert_eq!(rt; call_told(rt.alloc(), line.as_bytes())?, call, "of {line}");
    }
    Ok(())
}

// A line of words has at most 65,536 bytes, one of an option text any number.
#[test]
fn long_lines_are_read(rt: HostRuntime) -> Result<(), Fail> {
    let line = vec![in rt.alloc(); b'a'; 65_537]?;
    assert_eq!(rt; call_told(rt.alloc(), &line)?, None);
    let words = &line[1..];
    assert_eq!(rt;
        call_told(rt.alloc(), words)?,
        Some(Told::Words(payload::sum(words)))
    );
    let mut line = b"options ".to_vec(rt.alloc())?;
    line.extend_from_slice(&vec![in rt.alloc(); b'0'; 70_000]?)?;
    let text = vec![in rt.alloc(); 0; 35_000]?;
    assert_eq!(rt;
        call_told(rt.alloc(), &line)?,
        Some(Told::Text(payload::sum(&text)))
    );
    Ok(())
}
