// Input that may fail.
ghost use Rattle.std.specs.Prelude.{IfOk, IsOk, take};
ghost use Rattle.std.specs.Io.{ReadsAtMost};
ghost use Rattle.std.specs.Io.KnownBytes.{Consumes};

use std::io;
use std::io::Read;

// A reader for which a read that fails is the end.
#[derive(Drop)]
pub struct UntilFailure<R>(pub R);

impl<R: Read> Read for UntilFailure<R> {
    fn read(&mut self, buf: &mut [u8]) -> io::Result<usize>
        ensures bound { ReadsAtMost result buf.new }
        ensures never { IsOk result }
        ensures given { IfOk result (λ n. Consumes (R.remaining self.old.0) (R.remaining self.new.0) (take n buf.new)) }
    {
        Ok(self.0.read(buf).unwrap_or(0))
    }
}
