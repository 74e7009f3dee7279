//! Events, which happen to a service, and what each tells.
ghost use Rattle.std.specs.Prelude.{◌≡◌, Some, None};
ghost use Rattle.ports_core.specs.Tell.{CountsNone, spent_as_told};

use ports_http::Reply;
use refusals::OutOfMemory;
use turn_amounts::Spent;

/// Something that happens to a service. Connections go by the number that they had when they opened,
/// tenants by the place of their key.
#[derive(Drop)]
pub enum Event {
    /// A connection opens; its number is the next one.
    Open(u64),
    /// Bytes came on a connection, no more than it has room for.
    Piece(u64, Vec<u8>),
    /// The other side of a connection sends no more.
    End(u64),
    /// A connection is lost: it reads and writes no more.
    Fault(u64),
    /// That many of a connection's pending bytes were written; all of them if no number is given.
    Wrote(u64, Option<usize>),
    /// A tenant's turn: its first waiting request is answered, or its work goes on.
    Turn(usize),
}

/// A reply that is told: whose request it answers, and the connection that asked. If the request entered no
/// queue, there is no tenant. That is so for a head refusal, for a request without a known key, and for one
/// for whose own bytes there was no memory.
#[derive(Drop)]
pub struct Tell {
    pub tenant: Option<usize>,
    pub conn: u64,
    pub reply: Reply,
}

/// Why a connection wasn't opened.
#[derive(Clone, Copy, Debug, PartialEq, Eq)]
pub enum Refused {
    /// 16 connections are open, or no number is left.
    Connections,
    /// There was no memory for its buffers.
    Memory(OutOfMemory),
}

/// What an event told: at most one reply, the refusal of a connection that was to open, the connection that
/// closed, and the counts of units of work and of answers checked. Both counts are 0 in every event but a
/// turn, and in a turn that tells 503.
#[derive(Drop)]
pub struct Told {
    pub reply: Option<Tell>,
    pub refused: Option<Refused>,
    pub closed: Option<u64>,
    pub units: u64,
    pub checks: u64,
}

impl Told {
    /// An event tells nothing.
    pub(crate) fn nothing() -> Told
        ensures reply { result.reply ≡ None }
        ensures refused { result.refused ≡ None }
        ensures closed { result.closed ≡ None }
        ensures counts { CountsNone result }
    {
        Told::of(None, None)
    }

    /// An event tells a reply, or none, and that a connection closes, or none.
    pub(crate) fn of(reply: Option<Tell>, closed: Option<u64>) -> Told
        ensures reply { result.reply ≡ reply }
        ensures refused { result.refused ≡ None }
        ensures closed { result.closed ≡ closed }
        ensures counts { CountsNone result }
    {
        Told {
            reply,
            refused: None,
            closed,
            units: 0,
            checks: 0,
        }
    }

    /// The event of a turn tells no reply yet, and that this was spent.
    pub(crate) fn spending(spent: Spent) -> Told
        ensures reply { result.reply ≡ None }
        ensures refused { result.refused ≡ None }
        ensures closed { result.closed ≡ None }
        ensures spent { spent_as_told result ≡ spent }
    {
        Told {
            reply: None,
            refused: None,
            closed: None,
            units: spent.units,
            checks: spent.checks,
        }
    }

    /// The event of a turn tells this reply, for which this was spent, and that a connection closes, or none.
    pub(crate) fn answer(tell: Tell, closed: Option<u64>, spent: Spent) -> Told
        ensures reply { result.reply ≡ Some tell }
        ensures refused { result.refused ≡ None }
        ensures closed { result.closed ≡ closed }
        ensures spent { spent_as_told result ≡ spent }
    {
        Told {
            reply: Some(tell),
            closed,
            ..Told::spending(spent)
        }
    }

    /// An event tells that a connection isn't opened.
    pub(crate) fn refusal(refused: Refused) -> Told
        ensures reply { result.reply ≡ None }
        ensures refused { result.refused ≡ Some refused }
        ensures closed { result.closed ≡ None }
        ensures counts { CountsNone result }
    {
        Told {
            refused: Some(refused),
            ..Told::nothing()
        }
    }
}
