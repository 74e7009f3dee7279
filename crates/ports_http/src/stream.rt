//! A whole stream of bytes, decoded into requests piece by piece.
ghost use Rattle.std.specs.Prelude.{◌≡◌, OnOk};
ghost use Rattle.ports_http.specs.DecodedStream.{end_after, WaitsOrIsOver, DecodesWhole};
ghost use Rattle.ports_http.specs.DecodedStream.{DecodesPiece, DecodesAll, AddsFound};

use crate::conn::Conn;
use crate::fault::HeadFault;
use crate::request::{Request, TakeError};
use std::alloc::{AllocError, Global};

/// How a stream ends after its requests.
#[derive(Clone, Copy, Debug, PartialEq, Eq)]
pub enum StreamEnd {
    /// With bytes that are no whole request yet, or with none.
    Waiting,
    /// With a head refusal.
    Refused(HeadFault),
    /// With a request that closes; what follows it is dropped.
    Closed,
}

/// The requests of a stream, and how it ends.
#[derive(Drop)]
pub struct Decoded {
    pub requests: Vec<Request>,
    pub end: StreamEnd,
}

/// The requests of the stream that comes in these pieces, and how it ends. It doesn't matter how the stream
/// was cut into pieces: the clause speaks of the whole stream alone. It fails only if memory runs out.
pub fn decode(alloc: Global, pieces: &[Vec<u8>]) -> Result<Decoded, AllocError>
    ensures { DecodesWhole result pieces.now }
{
    let mut conn = Conn::new(alloc)?;
    let mut decoded = Decoded {
        requests: Vec::new(alloc),
        end: StreamEnd::Waiting,
    };
    take_all(alloc, &mut conn, &mut decoded)?;
    for piece in pieces {
        decode_piece(alloc, piece.as_slice(), &mut conn, &mut decoded)?;
    }
    Ok(decoded)
}

/// Feeds a piece of the stream, as far as there is room at a time, and takes the requests that are whole.
fn decode_piece(
    alloc: Global,
    piece: &[u8],
    conn: &mut Conn,
    decoded: &mut Decoded,
) -> Result<(), AllocError>
    requires { WaitsOrIsOver conn.old }
    ensures settled { OnOk result (WaitsOrIsOver conn.new) }
    ensures decoded { DecodesPiece result piece.now conn.old conn.new decoded.old decoded.new }
{
    let mut rest = piece;
    'feeding: while !rest.is_empty() && !conn.is_over() {
        let (now, later) = rest.split_at(conn.room().min(rest.len()));
        conn.feed(now);
        take_all(alloc, conn, decoded)?;
        rest = later;
    }
    Ok(())
}

/// Takes all requests of the stream that are whole.
fn take_all(alloc: Global, conn: &mut Conn, decoded: &mut Decoded) -> Result<(), AllocError>
    ensures settled { OnOk result (WaitsOrIsOver conn.new) }
    ensures decoded { DecodesAll result conn.old conn.new decoded.old decoded.new }
{
    'taking: loop {
        match conn.next_request(alloc) {
            Ok(None) => return Ok(()),
            Ok(Some(found)) => note(found, decoded)?,
            Err(error) => match error {
                TakeError::Memory { refused, .. } => return Err(refused.into()),
            },
        }
    }
}

/// Notes a request of the decoded stream, or the head refusal that ends the stream.
fn note(found: Result<Request, HeadFault>, decoded: &mut Decoded) -> Result<(), AllocError>
    ensures requests { AddsFound result decoded.old decoded.new found }
    ensures end { OnOk result (decoded.new.end ≡ end_after found) }
{
    match found {
        Ok(request) => {
            decoded.end = if request.close {
                StreamEnd::Closed
            } else {
                StreamEnd::Waiting
            };
            decoded.requests.push(request)?;
            Ok(())
        }
        Err(fault) => {
            decoded.end = StreamEnd::Refused(fault);
            Ok(())
        }
    }
}
