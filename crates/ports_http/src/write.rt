//! How replies are written: their bytes, line by line (RFC 9112).
ghost use Rattle.std.specs.Prelude.{◌≡◌, ◌+◌, ◌≤◌, ◌<◌, [], ◌++◌, length, codes, decimal, IfOk, OnOk, OnErr, vec_len, vec_capacity};
ghost use Rattle.std.specs.List.{flat_map};
ghost use Rattle.ports_http.specs.Limits.{fixed_limit};
ghost use Rattle.ports_http.specs.Puts.{AppendsIfRoom};
ghost use Rattle.ports_http.specs.Replies.{reply_text, reply_head, line, content_line, next_method, allow_line};
ghost use Rattle.ports_http.specs.Replies.{close_line, status_text, IsFixed};

use crate::method::Method;
use crate::reply::{Content, Reply};
use http::StatusCode;
use itoa::Buffer;
use std::alloc::{AllocError, Global};

/// The bytes of a reply as they are written to a connection. If the connection closes after it, the reply
/// says `Connection: close`. It fails only if memory runs out.
pub fn write_reply(alloc: Global, reply: &Reply, close: bool) -> Result<Vec<u8>, AllocError>
    ensures { IfOk result (λ bytes. bytes.items ≡ reply_text reply.now close) }
{
    let mut out = Vec::new(alloc);
    put_reply(reply, close, &mut out)?;
    Ok(out)
}

/// Writes the bytes of a reply into an empty `Vec` that has room for a fixed reply. It takes no memory.
pub fn write_fixed(reply: &Reply, close: bool, out: &mut Vec<u8>)
    requires fixed { IsFixed reply.now close }
    requires empty { out.old.items ≡ [] }
    requires room { fixed_limit ≤ vec_capacity out.old }
    ensures text { out.new.items ≡ reply_text reply.now close }
    ensures kept { vec_capacity out.old ≤ vec_capacity out.new }
{
    put_reply(reply, close, out).unwrap();
}

/// Writes the bytes of a reply after others. It fails only if the room was too small.
#[tactic(auto, unfolding(crate::specs::Replies::reply_text))]
fn put_reply(reply: &Reply, close: bool, out: &mut Vec<u8>) -> Result<(), AllocError>
    ensures { AppendsIfRoom out.old (reply_text reply.now close) result out.new }
{
    let body = reply.body();
    put_head(reply, close, body.len(), out)?;
    out.extend_from_slice(body)?;
    Ok(())
}

/// Writes the head of a reply: all but the body, which has this many bytes.
fn put_head(reply: &Reply, close: bool, size: usize, out: &mut Vec<u8>) -> Result<(), AllocError>
    ensures { AppendsIfRoom out.old (reply_head reply.now close size) result out.new }
{
    put_status(reply.status, out)?;
    put_content(reply.content, out)?;
    put_line("Content-Length: ", Buffer::new().format(size), out)?;
    put_allow(reply.allow, out)?;
    put_close(close, out)?;
    put_line("", "", out)
}

/// Writes the status line of a reply.
#[tactic(auto, unfolding(crate::specs::Replies::status_text))]
fn put_status(status: StatusCode, out: &mut Vec<u8>) -> Result<(), AllocError>
    ensures { AppendsIfRoom out.old (line (codes "HTTP/1.1 " ++ status_text status)) result out.new }
{
    put_text("HTTP/1.1 ", out)?;
    put_text(status.as_str(), out)?;
    put_text(" ", out)?;
    put_line(status.canonical_reason().unwrap_or(""), "", out)
}

/// Writes the Content-Type line of a reply, if its body has a media type.
fn put_content(content: Option<Content>, out: &mut Vec<u8>) -> Result<(), AllocError>
    ensures { AppendsIfRoom out.old (content_line content) result out.new }
{
    match content {
        Some(content) => put_line("Content-Type: ", content.as_str(), out),
        None => Ok(()),
    }
}

/// Writes the Connection line of a reply, if the connection closes.
fn put_close(close: bool, out: &mut Vec<u8>) -> Result<(), AllocError>
    ensures { AppendsIfRoom out.old (close_line close) result out.new }
{
    if close {
        put_line("Connection: ", "close", out)
    } else {
        Ok(())
    }
}

/// Writes the Allow line of a reply, if it has methods.
fn put_allow(allow: &[Method], out: &mut Vec<u8>) -> Result<(), AllocError>
    ensures { AppendsIfRoom out.old (allow_line allow.now) result out.new }
{
    match allow.split_first() {
        None => Ok(()),
        Some((first, more)) => {
            put_text("Allow: ", out)?;
            put_text(first.as_str(), out)?;
            put_methods(more, out)?;
            put_line("", "", out)
        }
    }
}

/// Writes each method in a reply's Allow line after a comma and a blank.
fn put_methods(methods: &[Method], out: &mut Vec<u8>) -> Result<(), AllocError>
    ensures { AppendsIfRoom out.old (flat_map next_method methods.now) result out.new }
{
    for method in methods {
        put_method(*method, out)?;
    }
    Ok(())
}

/// Writes a method in a reply's Allow line after a comma and a blank.
fn put_method(method: Method, out: &mut Vec<u8>) -> Result<(), AllocError>
    ensures { AppendsIfRoom out.old (next_method method) result out.new }
{
    put_text(", ", out)?;
    put_text(method.as_str(), out)
}

/// Writes a field line of a reply: a name and a value.
fn put_line(name: &str, value: &str, out: &mut Vec<u8>) -> Result<(), AllocError>
    ensures { AppendsIfRoom out.old (line (name.now ++ value.now)) result out.new }
{
    put_text(name, out)?;
    put_text(value, out)?;
    put_text("\r\n", out)
}

/// Writes a text into the bytes of a reply.
fn put_text(text: &str, out: &mut Vec<u8>) -> Result<(), AllocError>
    ensures { AppendsIfRoom out.old text.now result out.new }
{
    out.extend_from_slice(text.as_bytes())
}
