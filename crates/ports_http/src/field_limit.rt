//! The limit of field lines: whether a head that isn't whole begins one field line too many.
ghost use Rattle.std.specs.Prelude.{◌≡◌, ◌≤◌, ◌<◌, ◌+◌, ◌-◌, ◌==◌, ◌++◌, ◌∷◌, [], not, true, false, length, take, drop, slice_index};
ghost use Rattle.httparse.specs.Ascii.{line_feed};
ghost use Rattle.httparse.specs.Grammar.{AllPass};
ghost use Rattle.ports_http.specs.Limits.{head_limit};
ghost use Rattle.ports_http.specs.Streams.{BeginsOneMore, BeginsOneMoreOpen, IsFullHead};

use crate::first::{FIELD_LIMIT, HEAD_LIMIT};
use httparse::Status;
use httparse::spans::{EMPTY_HEADER_SPAN, parse_request};

/// Whether an unfinished head begins a field line beyond the limit. As many field lines as a head may have
/// come first, and then a line begins that isn't finished and isn't the empty one.
pub(crate) fn begins_one_more(bytes: &[u8]) -> bool
    requires { length bytes.now ≤ head_limit }
    ensures yes { result ≡ true → BeginsOneMore bytes.now }
    ensures no { result ≡ false → ¬ BeginsOneMoreOpen bytes.now }
{
    let at = after_last_feed(bytes);
    if at == 0 || at == bytes.len() || bytes[at] == b'\r' {
        return false;
    }
    is_full_with_feed(&bytes[..at])
}

/// The place after the last line feed of an unfinished head; 0 if there is none.
fn after_last_feed(bytes: &[u8]) -> usize
    ensures within { result ≤ length bytes.now }
    ensures feed { 0 < result → slice_index bytes.now (result - 1) ≡ line_feed }
    ensures last { AllPass (λ b. not (b == line_feed)) (drop result bytes.now) }
{
    let mut at = bytes.len();
    while at > 0 && bytes[at - 1] != b'\n' {
        at -= 1;
    }
    at
}

/// Whether these bytes of a head and then an empty line have as many field lines as a head may have.
fn is_full_with_feed(bytes: &[u8]) -> bool
    requires { length bytes.now ≤ head_limit }
    ensures yes { result ≡ true → IsFullHead (bytes.now ++ line_feed ∷ []) }
    ensures no { result ≡ false → ¬ IsFullHead (bytes.now ++ line_feed ∷ []) }
{
    let mut text = [0u8; HEAD_LIMIT + 1];
    copy_with_feed(bytes, &mut text);
    is_full(&text[..bytes.len() + 1])
}

/// Copies the bytes of a head to the front of a text, and puts a line feed after them.
fn copy_with_feed(bytes: &[u8], text: &mut [u8])
    requires { length bytes.now < length text.old }
    ensures copied { take (length bytes.now + 1) text.new ≡ bytes.now ++ line_feed ∷ [] }
    ensures length { length text.new ≡ length text.old }
{
    text[..bytes.len()].copy_from_slice(bytes);
    text[bytes.len()] = b'\n';
}

/// Whether the bytes are a whole head with as many field lines as it may have.
fn is_full(bytes: &[u8]) -> bool
    ensures yes { result ≡ true → IsFullHead bytes.now }
    ensures no { result ≡ false → ¬ IsFullHead bytes.now }
{
    let mut fields = [EMPTY_HEADER_SPAN; FIELD_LIMIT];
    match parse_request(bytes, &mut fields) {
        Ok(Status::Complete(spans)) => spans.headers == FIELD_LIMIT && spans.len == bytes.len(),
        _ => false,
    }
}
