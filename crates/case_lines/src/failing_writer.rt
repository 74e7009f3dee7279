//! An output for cases that fails after so many writes: a failing writer.
ghost use Rattle.std.specs.Prelude.{◌≡◌, ◌+◌, IfOk, IfErr, OnOk, OnErr, IsOk, Some, length, min};
ghost use Rattle.std.specs.Io.{WritesAtMost};
ghost use Rattle.std.specs.Io.KnownBytes.{WriteAppends, Keeps};
ghost use Rattle.std.specs.IoError.{error_kind};
ghost use Rattle.case_lines.specs.FailingStreams.{write_fault};

use std::io::{self, ErrorKind, Write};

/// A failing writer, as an output of cases: it takes one byte at a write, and fails after so many writes.
#[derive(Drop)]
pub struct FailingWriter {
    /// The bytes that it has taken.
    pub taken: Vec<u8>,
    /// How many writes it still answers.
    pub writes: usize,
}

impl Write for FailingWriter {
    ghost contents = { λ writer. Some writer.taken.items };

    /// A write of a failing writer takes the first byte, if there is one. It fails if no write is left, or if
    /// memory runs out; then nothing was taken.
    fn write(&mut self, buf: &[u8]) -> io::Result<usize>
        ensures bound { WritesAtMost result buf.now }
        ensures bytes { WriteAppends (Some self.old.taken.items)
            (Some self.new.taken.items) result buf.now }
        ensures count { IfOk result (λ n. n ≡ min (length buf.now) 1) }
        ensures writes { OnOk result (self.old.writes ≡ self.new.writes + 1) }
        ensures fault { IfErr result (λ e. error_kind e ≡ write_fault self.old.writes) }
        ensures stays { OnErr result (self.new.writes ≡ self.old.writes) }
    {
        if self.writes == 0 {
            return Err(io::Error::from(ErrorKind::BrokenPipe));
        }
        let Some(first) = buf.first() else {
            self.writes -= 1;
            return Ok(0);
        };
        self.taken.push(*first)?;
        self.writes -= 1;
        Ok(1)
    }

    /// A failing writer holds nothing back, so there is nothing to flush.
    fn flush(&mut self) -> io::Result<()>
        ensures bytes { Keeps (Some self.old.taken.items) (Some self.new.taken.items) }
        ensures ok { IsOk result }
        ensures unchanged { self.new ≡ self.old }
    {
        Ok(())
    }
}
