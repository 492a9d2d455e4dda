// Output that may fail.
ghost use Rattle.std.specs.Prelude.{◌≡◌, IfOk, IsOk, length};
ghost use Rattle.std.specs.Io.{WritesAtMost};

use std::io;
use std::io::Write;

// A writer for which bytes that cannot be written are lost.
#[derive(Drop)]
pub struct Lossy<W>(pub W);

impl<W: Write> Write for Lossy<W> {
    fn write(&mut self, buf: &[u8]) -> io::Result<usize>
        ensures bound { WritesAtMost result buf.now }
        ensures never_fails { IsOk result }
        ensures some { IfOk result (λ n. n ≡ 0 → length buf.now ≡ 0) }
    {
        match self.0.write(buf) {
            Ok(count) if count > 0 => Ok(count),
            _ => Ok(buf.len()),
        }
    }

    fn flush(&mut self) -> io::Result<()>
        ensures never_fails { IsOk result }
    {
        let _ = self.0.flush();
        Ok(())
    }
}
