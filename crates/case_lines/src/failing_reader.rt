//! An input for cases that fails after so many reads: a failing reader.
ghost use Rattle.std.specs.Prelude.{◌≡◌, ◌+◌, IfOk, IfErr, OnOk, OnErr, Some, length};
ghost use Rattle.std.specs.Io.{ReadsAtMost};
ghost use Rattle.std.specs.Io.KnownBytes.{ReadConsumes};
ghost use Rattle.std.specs.IoError.{error_kind};
ghost use Rattle.case_lines.specs.FailingStreams.{given_at_once};

use std::io::{self, ErrorKind, Read};

/// The most bytes that one read of a failing reader gives.
const MOST_AT_ONCE: usize = 5;

/// A failing reader, as an input of cases: it gives at most five bytes at a read, and fails after so many
/// reads.
#[derive(Drop)]
pub struct FailingReader<'a> {
    /// The bytes that it still has.
    pub rest: &'a [u8],
    /// How many reads it still answers.
    pub reads: u64,
}

impl Read for FailingReader<'_> {
    ghost remaining = { λ reader. Some reader.rest.now };

    /// A read of a failing reader gives at most five of the bytes that are left, and none at their end. If no
    /// read is left, it fails, always with the same error, and takes nothing.
    fn read(&mut self, buf: &mut [u8]) -> io::Result<usize>
        ensures bound { ReadsAtMost result buf.new }
        ensures bytes { ReadConsumes (Some self.old.rest.now)
            (Some self.new.rest.now) result buf.new }
        ensures count { IfOk result (λ n. n
            ≡ given_at_once (length self.old.rest.now) (length buf.old)) }
        ensures reads { OnOk result (self.old.reads ≡ self.new.reads + 1) }
        ensures fails { OnErr result (self.old.reads ≡ 0) }
        ensures fault { IfErr result (λ e. error_kind e ≡ ErrorKind.ConnectionReset) }
        ensures stays { OnErr result (self.new ≡ self.old) }
    {
        if self.reads == 0 {
            return Err(io::Error::from(ErrorKind::ConnectionReset));
        }
        self.reads -= 1;
        let count = self.rest.len().min(buf.len()).min(MOST_AT_ONCE);
        let (given, rest) = self.rest.split_at(count);
        buf[..count].copy_from_slice(given);
        self.rest = rest;
        Ok(count)
    }
}
