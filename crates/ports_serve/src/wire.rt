//! The trait of a wire: what carries the bytes of connections.
ghost use Rattle.std.specs.Prelude.{◌≡◌, length};
ghost use Rattle.ports_serve.specs.Calls.{Call, Accept, Write, Shut, FillsFront, GotWithin};

/// What a call of a wire brought.
#[derive(Clone, Copy, Debug, PartialEq, Eq)]
pub enum Outcome<T> {
    /// Nothing yet.
    Nothing,
    /// Something.
    Got(T),
    /// The other side sends no more.
    End,
    /// The connection is lost.
    Fault,
}

/// What carries the bytes of connections, each under the number that it was accepted with.
///
/// Its meaning is a relation: what it was, a call with what it brought, and what it is after that. For a
/// wire that keeps a list of its calls, the relation is that the list has this call more. Nothing is known
/// of sockets, so theirs may be any relation.
pub trait Wire {
    ghost after: { Self → Call → Self → Type 0 };

    /// Accepts the client that waited longest on the wire, if one waits, and gives its connection this
    /// number. If the caller is idle, it may wait a while for something to come, on any connection.
    fn accept(&mut self, conn: u64, idle: bool) -> Outcome<()>
        ensures after { after self.old (Accept conn idle result) self.new };

    /// Reads bytes of a connection from the wire into the front of the buffer; `Got` says how many.
    fn read(&mut self, conn: u64, buffer: &mut [u8]) -> Outcome<usize>
        ensures within { GotWithin (length buffer.old) result }
        ensures size { length buffer.new ≡ length buffer.old }
        ensures after { FillsFront after conn buffer.old buffer.new result self.old self.new };

    /// Writes bytes to a connection over the wire, from the first on; `Got` says how many.
    fn write(&mut self, conn: u64, bytes: &[u8]) -> Outcome<usize>
        ensures within { GotWithin (length bytes.now) result }
        ensures after { after self.old (Write conn bytes.now result) self.new };

    /// Shuts a connection: the wire drops it.
    fn shut(&mut self, conn: u64)
        ensures after { after self.old (Shut conn) self.new };
}
