//! The input of the program, read to its end.
ghost use Rattle.std.specs.Prelude.{OnErr};
ghost use Rattle.portsd_text.specs.Scripts.{HasGivenSome, ReadsInput};

use std::alloc::{AllocError, Global};
use std::io::{ErrorKind, Read};

/// The most reads of an input. If an input hasn't ended by then, it is treated as if its next read failed.
const MOST_READS: u64 = 4_294_967_296;

/// The bytes that the program's input gave.
#[derive(Drop)]
pub struct Given {
    /// The bytes, up to the input's end or to the read that failed.
    pub text: Vec<u8>,
    /// Whether the input ended after them, and no read failed.
    pub whole: bool,
}

/// Reads the program's input to its end, or up to a read that fails. A read that was interrupted is tried
/// again. It fails only if there is no memory for the bytes.
pub fn read_input<R: Read>(alloc: Global, reader: &mut R) -> Result<Given, AllocError>
    ensures given { ReadsInput result (R.remaining reader.old) (R.remaining reader.new) }
    ensures err { OnErr result (HasGivenSome (R.remaining reader.old) (R.remaining reader.new)) }
{
    let mut text = Vec::new(alloc);
    let mut buffer = [0; 4_096];
    for _ in 0..MOST_READS {
        match reader.read(&mut buffer) {
            Ok(0) => return Ok(Given { text, whole: true }),
            Ok(count) => text.extend_from_slice(&buffer[..count])?,
            Err(error) if error.kind() == ErrorKind::Interrupted => {}
            Err(_) => break,
        }
    }
    Ok(Given { text, whole: false })
}
