//! What the head of a request announces: the method, and the length of the body.
ghost use Rattle.std.specs.Prelude.{◌≡◌, length, codes, All, Option, Result, Ok, Err};
ghost use Rattle.httparse.specs.Spans.{IsHeaderWithin};
ghost use Rattle.ports_http.specs.Fields.{field_values};
ghost use Rattle.ports_http.specs.Heads.{announced, no_coding, one_host, stated_length, body_length};
ghost use Rattle.ports_http.specs.Spans.{named, values_in};

use crate::fault::HeadFault;
use crate::fields::{Occurs, find, length_of};
use crate::method::{Method, method_of};
use httparse::spans::HeaderSpan;

/// The most bytes of a request's body.
const BODY_LIMIT: u64 = 131_072;

/// What a request's head announces: the method, and how many bytes the body has; or the first refusal that
/// fits.
#[tactic(auto, unfolding(crate::specs::Heads::announced))]
pub(crate) fn announced(
    word: &[u8],
    minor: u8,
    buf: &[u8],
    fields: &[HeaderSpan],
) -> Result<(Method, usize), HeadFault>
    requires { All (IsHeaderWithin (length buf.now)) fields.now }
    ensures { result ≡ announced word.now minor (named buf.now fields.now) }
{
    let method = method_of(word)?;
    no_coding(buf, fields)?;
    one_host(minor, buf, fields)?;
    let stated = stated_length(buf, fields)?;
    let length = body_length(method, stated)?;
    Ok((method, length))
}

/// Refuses a head that announces a Transfer-Encoding.
fn no_coding(buf: &[u8], fields: &[HeaderSpan]) -> Result<(), HeadFault>
    requires { All (IsHeaderWithin (length buf.now)) fields.now }
    ensures { result ≡ no_coding (values_in buf.now fields.now (codes "transfer-encoding")) }
{
    match find(buf, fields, "transfer-encoding") {
        Occurs::Never => Ok(()),
        _ => Err(HeadFault::TransferEncoding),
    }
}

/// Refuses a head with more than one Host, or with none if the request is of HTTP/1.1.
fn one_host(minor: u8, buf: &[u8], fields: &[HeaderSpan]) -> Result<(), HeadFault>
    requires { All (IsHeaderWithin (length buf.now)) fields.now }
    ensures { result ≡ one_host minor (field_values (codes "host") (named buf.now fields.now)) }
{
    match find(buf, fields, "host") {
        Occurs::Once(_) => Ok(()),
        Occurs::Never if minor == 0 => Ok(()),
        _ => Err(HeadFault::HostCount),
    }
}

/// The length of the body that a head's Content-Length announces, if there is one; more than one, or a bad
/// one, is refused.
fn stated_length(buf: &[u8], fields: &[HeaderSpan]) -> Result<Option<u64>, HeadFault>
    requires { All (IsHeaderWithin (length buf.now)) fields.now }
    ensures { result ≡ stated_length (values_in buf.now fields.now (codes "content-length")) }
{
    match find(buf, fields, "content-length") {
        Occurs::Never => Ok(None),
        Occurs::Once(value) => match length_of(value.of(buf)) {
            Some(length) => Ok(Some(length)),
            None => Err(HeadFault::ContentLength),
        },
        Occurs::Often => Err(HeadFault::ContentLength),
    }
}

/// The length of a request's body by its method and the length that is announced: a PUT must have one, and
/// none may be over 131,072.
#[tactic(auto, unfolding(crate::specs::Limits::body_limit))]
fn body_length(method: Method, stated: Option<u64>) -> Result<usize, HeadFault>
    ensures { result ≡ body_length method stated }
{
    match stated {
        Some(length) if length > BODY_LIMIT => Err(HeadFault::BodyTooLarge),
        Some(length) => Ok(length as usize),
        None => match method {
            Method::Put => Err(HeadFault::LengthRequired),
            _ => Ok(0),
        },
    }
}
