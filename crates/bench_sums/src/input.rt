// The option text on a benchmark's standard input.
use std::alloc::Global;
use std::io;
use std::io::Read;

// So many bytes of the input are read at most.
const MAX_INPUT: u64 = 65536;

// The bytes of the input.
pub fn read_text<R: Read + Drop>(alloc: Global, input: R) -> io::Result<Vec<u8>> {
    let mut text = Vec::new(alloc);
    input.take(MAX_INPUT).read_to_end(&mut text)?;
    Ok(text)
}
