//! The output of the program: bytes written to their end.
ghost use Rattle.std.specs.Prelude.{◌≢◌, IfErr};
ghost use Rattle.std.specs.IoError.{error_kind};
ghost use Rattle.portsd_text.specs.Output.{WritesAll, FailsAfterFront};

use std::io::{self, ErrorKind, Write};

/// Writes all of the bytes to the program's output, each once, in as many writes as that takes. A write that
/// was interrupted is tried again.
///
/// The error is that of the write that failed or took nothing. Up to there a front of the bytes was
/// written. If there are no bytes, nothing fails.
pub fn write_whole<W: Write>(out: &mut W, bytes: &[u8]) -> io::Result<()>
    ensures written { WritesAll W.contents result out.old out.new bytes.now }
    ensures front { FailsAfterFront W.contents result out.old out.new bytes.now }
    ensures retried { IfErr result (λ error. error_kind error ≢ ErrorKind.Interrupted) }
{
    let mut done = 0;
    for _ in 0..u64::MAX {
        if done == bytes.len() {
            return Ok(());
        }
        match out.write(&bytes[done..]) {
            Ok(0) => return Err(io::Error::from(ErrorKind::WriteZero)),
            Ok(count) => done += count,
            Err(error) if error.kind() == ErrorKind::Interrupted => {}
            Err(error) => return Err(error),
        }
    }
    if done == bytes.len() {
        return Ok(());
    }
    Err(io::Error::from(ErrorKind::TimedOut))
}
