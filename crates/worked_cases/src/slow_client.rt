//! Worked cases of a slow client, which sends and takes one byte at a time.
ghost use Rattle.std.specs.Prelude.{ℕ};
ghost use Rattle.ports_serve.specs.Calls.{Call};

use crate::service::service_of_one;
use case_lines::{Answer, Trouble};
use ports_serve::{Outcome, Wire, serve};
use std::alloc::Global;

/// More rounds than the calls of a slow client.
const ROUNDS: u32 = 450;

/// A wire with one slow client, which sends a stream and then no more, one byte at a read, and takes one byte
/// at a write. One of its reads and writes may be lost.
#[derive(Drop)]
struct Trickle<'a> {
    waits: bool,
    unread: &'a [u8],
    taken: Vec<u8>,
    calls: u64,
    lost: u64,
    shut: bool,
}

impl Trickle<'_> {
    /// Counts a read or a write of the slow client, and gives whether it is the one that is lost.
    fn is_lost(&mut self) -> bool {
        self.calls = self.calls.saturating_add(1);
        self.calls == self.lost
    }
}

impl Wire for Trickle<'_> {
    ghost after = { λ old call new. Unit {0} };

    /// The slow client comes once.
    fn accept(&mut self, _conn: u64, _idle: bool) -> Outcome<()> {
        if !self.waits {
            return Outcome::Nothing;
        }
        self.waits = false;
        Outcome::Got(())
    }

    /// The slow client sends its next byte, or its end, unless this read is lost.
    fn read(&mut self, _conn: u64, buffer: &mut [u8]) -> Outcome<usize> {
        if self.is_lost() {
            return Outcome::Fault;
        }
        let (Some((byte, unread)), Some(place)) = (self.unread.split_first(), buffer.first_mut())
        else {
            return Outcome::End;
        };
        *place = *byte;
        self.unread = unread;
        Outcome::Got(1)
    }

    /// The slow client takes one byte, unless this write is lost.
    fn write(&mut self, _conn: u64, bytes: &[u8]) -> Outcome<usize> {
        if self.is_lost() {
            return Outcome::Fault;
        }
        match bytes.first() {
            Some(byte) if self.taken.push(*byte).is_ok() => Outcome::Got(1),
            _ => Outcome::Nothing,
        }
    }

    /// Notes that the slow client's connection is shut.
    fn shut(&mut self, _conn: u64) {
        self.shut = true;
    }
}

/// The call `trickle STREAM` of a worked case of a slow client: what a client takes if it sends this stream,
/// for the tenant `alpha`, and no more, one byte at a time. Before that, each of its reads and writes is lost
/// in turn. If such a client takes anything but a front of it, or one isn't shut, it gives `wrong` and the
/// number of that call.
pub fn trickled(alloc: Global, given: &[Vec<u8>]) -> Result<Answer, Trouble> {
    let [stream] = given else {
        return Err(Trouble::NoCase);
    };
    let whole = served(alloc, stream.as_slice(), 0)?;
    let mut answer = Answer::new(alloc);
    for lost in 1..=whole.calls {
        let wire = served(alloc, stream.as_slice(), lost)?;
        if !whole.taken.starts_with(wire.taken.as_slice()) || !wire.shut {
            answer.word("wrong");
            answer.number(lost);
        }
    }
    answer.text(whole.taken.as_slice());
    Ok(answer)
}

/// The wire of a slow client that the service has served with this stream, and with one call lost.
fn served<'a>(alloc: Global, stream: &'a [u8], lost: u64) -> Result<Trickle<'a>, Trouble> {
    let service = service_of_one(alloc)?;
    let mut wire = Trickle {
        waits: true,
        unread: stream,
        taken: Vec::new(alloc),
        calls: 0,
        lost,
        shut: false,
    };
    let _service = serve(alloc, &mut wire, service, ROUNDS)?;
    Ok(wire)
}
