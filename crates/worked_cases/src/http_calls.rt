//! Worked cases of calls of HTTP: the requests of a stream, and the bytes of replies.
use case_lines::{Answer, Trouble};
use http::StatusCode;
use ports_http::{
    Content, HeadFault, Method, Reply, Request, StreamEnd, decode, write_fixed, write_reply,
};
use std::alloc::Global;

/// The call `stream PIECE..` of a worked case of HTTP: the requests of a stream that comes in these pieces,
/// and then how the stream ends. Each request is its method, target and body, with `key` and its key, and
/// `closes` if it does.
pub fn stream(alloc: Global, given: &[Vec<u8>]) -> Result<Answer, Trouble> {
    let decoded = decode(alloc, given)?;
    let mut answer = Answer::new(alloc);
    for request in &decoded.requests {
        add_request(&mut answer, request);
    }
    match decoded.end {
        StreamEnd::Waiting => answer.word("waiting"),
        StreamEnd::Closed => answer.word("closed"),
        StreamEnd::Refused(fault) => answer.kind(&fault),
    }
    Ok(answer)
}

/// Adds a request of a stream to the answer of a worked case of HTTP: its method, target and body, its key,
/// and whether it closes.
fn add_request(answer: &mut Answer, request: &Request) {
    answer.word(request.method.as_str());
    answer.text(request.target.as_bytes());
    answer.text(request.body.as_slice());
    if let Some(key) = &request.key {
        answer.word("key");
        answer.text(key.as_slice());
    }
    if request.close {
        answer.word("closes");
    }
}

/// The call `stream by bytes TEXT` of a worked case of HTTP: the requests of a stream of which each byte is a
/// piece, and how the stream ends.
pub fn stream_by_bytes(alloc: Global, given: &[Vec<u8>]) -> Result<Answer, Trouble> {
    let [text] = given else {
        return Err(Trouble::NoCase);
    };
    let mut pieces = Vec::new(alloc);
    for byte in text {
        pieces.push(Vec::from_slice(alloc, &[*byte])?)?;
    }
    stream(alloc, pieces.as_slice())
}

/// The call `reply file BYTES` of a worked case of HTTP: the bytes of the reply that gives a file.
pub fn file_reply(alloc: Global, given: &[Vec<u8>]) -> Result<Answer, Trouble> {
    let [bytes] = given else {
        return Err(Trouble::NoCase);
    };
    let reply = Reply::of_bytes(StatusCode::OK, Some(Content::Octets), bytes.clone()?);
    Ok(bytes_answer(alloc, write_reply(alloc, &reply, false)?.as_slice()))
}

/// The call `reply method` of a worked case of HTTP: the bytes of the reply 405 of a route that has every
/// method, after which the connection closes.
pub fn method_reply(alloc: Global) -> Result<Answer, Trouble> {
    let text = "{\"error\":\"Method\"}";
    let reply = Reply::of_text(
        StatusCode::METHOD_NOT_ALLOWED,
        Some(Content::Json),
        text,
    ).with_allow(&[Method::Get, Method::Put, Method::Delete]);
    Ok(bytes_answer(alloc, write_reply(alloc, &reply, true)?.as_slice()))
}

/// The call `reply head` of a worked case of HTTP: the bytes of the reply to a head that is too large.
#[tactic(auto, unfolding(ports_http::specs::Limits::fixed_limit))]
pub fn head_reply(alloc: Global) -> Result<Answer, Trouble> {
    let mut out = Vec::with_capacity(alloc, 256)?;
    write_fixed(&HeadFault::HeadTooLarge.reply(), true, &mut out);
    Ok(bytes_answer(alloc, out.as_slice()))
}

/// The call `reply key` of a worked case of HTTP: the bytes of the reply to a request without a known key.
#[tactic(auto, unfolding(ports_http::specs::Limits::fixed_limit))]
pub fn key_reply(alloc: Global) -> Result<Answer, Trouble> {
    let mut out = Vec::with_capacity(alloc, 256)?;
    write_fixed(&Reply::unknown_key(), false, &mut out);
    Ok(bytes_answer(alloc, out.as_slice()))
}

/// The call `reply store` of a worked case of HTTP: the bytes of the reply to a request for which there was
/// no memory.
#[tactic(auto, unfolding(ports_http::specs::Limits::fixed_limit))]
pub fn store_reply(alloc: Global) -> Result<Answer, Trouble> {
    let mut out = Vec::with_capacity(alloc, 256)?;
    write_fixed(&Reply::store_failed(), false, &mut out);
    Ok(bytes_answer(alloc, out.as_slice()))
}

/// The answer of a worked case of HTTP: the bytes of a reply as one text, which may be no UTF-8.
pub fn bytes_answer(alloc: Global, bytes: &[u8]) -> Answer {
    let mut answer = Answer::new(alloc);
    answer.text(bytes);
    answer
}
