// How many bytes a slot has in a store of two slots: those out of range are none.
use crate::calls::WIDTH;
use crate::host::Host;
use std::io;
use std::io::Write;

const CASES: [(&str, u32, usize); 5] = [
    ("payload slot 1 length 2048", 1, 2048),
    ("payload slot 1 length 2049", 1, 2049),
    ("payload slot 2 length 1", 2, 1),
    ("payload slot 2^32 - 1 length 2048", u32::MAX, 2048),
    ("payload slot 0 length 2^64 - 1", 0, usize::MAX),
];

pub fn run<W: Write + Drop>(host: &mut Host<W>) -> io::Result<()> {
    let store = [0u8; 4096];
    for (name, slot, length) in CASES {
        host.case(name, |host| {
            host.tell(device::payload(&store, WIDTH as u32, slot, length).len())
        })?;
    }
    Ok(())
}
