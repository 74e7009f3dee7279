//! Interrupted streams of worked cases: inputs and outputs whose calls are interrupted.
use std::io::{self, ErrorKind, Read, Write};

/// An interrupted input or output of a worked case: each call is interrupted once before the stream takes it.
#[derive(Drop)]
pub struct Interrupted<S> {
    pub stream: S,
    is_tried: bool,
}

impl<S> Interrupted<S> {
    /// The interrupted stream of a worked case, whose first call is interrupted.
    pub fn new(stream: S) -> Interrupted<S> {
        Interrupted {
            stream,
            is_tried: false,
        }
    }

    /// Fails as interrupted at each call of the stream that wasn't tried before.
    fn interrupt(&mut self) -> io::Result<()> {
        self.is_tried = !self.is_tried;
        if self.is_tried {
            return Err(io::Error::from(ErrorKind::Interrupted));
        }
        Ok(())
    }
}

impl<S: Read> Read for Interrupted<S> {
    /// A read of an interrupted input: the first try fails, the second one reads.
    fn read(&mut self, buf: &mut [u8]) -> io::Result<usize> {
        self.interrupt()?;
        self.stream.read(buf)
    }
}

impl<S: Write> Write for Interrupted<S> {
    /// A write to an interrupted output: the first try fails, the second one writes.
    fn write(&mut self, buf: &[u8]) -> io::Result<usize> {
        self.interrupt()?;
        self.stream.write(buf)
    }

    /// Flushes the output, and is never interrupted.
    fn flush(&mut self) -> io::Result<()> {
        self.stream.flush()
    }
}
