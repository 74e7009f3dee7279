//! The fields of a request's head, found by name: the key, Connection, and the number in a Content-Length.
ghost use Rattle.std.specs.Prelude.{◌≡◌, length, codes, All, IfSome, Option, Some, None, option_map, if◌then◌else◌, ◌==◌};
ghost use Rattle.std.specs.List.{list_all, list_any, slice_split};
ghost use Rattle.std.specs.Char.{is_ascii_digit};
ghost use Rattle.std.specs.Str.Parse.{digits_value};
ghost use Rattle.httparse.specs.Grammar.{is_ows, trim_ows};
ghost use Rattle.httparse.specs.Spans.{IsWithin, IsHeaderWithin, span_bytes, header_bytes};
ghost use Rattle.ports_http.specs.Fields.{field_values, is_named, is_length, is_close_option, is_closing, ends_connection, request_key};
ghost use Rattle.ports_http.specs.Spans.{OccursAs, with_one, named};

use httparse::spans::{HeaderSpan, Span};
use std::str;

/// How often a field occurs in a head, and the value of one that occurs once.
#[derive(Clone, Copy)]
pub(crate) enum Occurs {
    Never,
    Once(Span),
    Often,
}

impl Occurs {
    /// How often a field occurs in a head with one more that has this value.
    fn with(self, value: Span) -> Occurs
        ensures { result ≡ with_one self value }
    {
        match self {
            Occurs::Never => Occurs::Once(value),
            _ => Occurs::Often,
        }
    }
}

/// How often the field of this name occurs among the fields of a head.
pub(crate) fn find(buf: &[u8], fields: &[HeaderSpan], name: &str) -> Occurs
    requires { All (IsHeaderWithin (length buf.now)) fields.now }
    ensures { OccursAs buf.now result (field_values name.now (named buf.now fields.now)) }
{
    let mut found = Occurs::Never;
    for field in fields {
        if is_named(buf, *field, name) {
            found = found.with(field.value);
        }
    }
    found
}

/// Whether a field of a head has this name, in letters of either case.
fn is_named(buf: &[u8], field: HeaderSpan, name: &str) -> bool
    requires { IsHeaderWithin (length buf.now) field }
    ensures { result ≡ is_named name.now (header_bytes buf.now field) }
{
    field.name.of(buf).eq_ignore_ascii_case(name.as_bytes())
}

/// The value of the field `X-Ports-Key` in a head, if there is exactly one.
pub(crate) fn key_of(buf: &[u8], fields: &[HeaderSpan]) -> Option<Span>
    requires { All (IsHeaderWithin (length buf.now)) fields.now }
    ensures value { option_map (span_bytes buf.now) result ≡ request_key (named buf.now fields.now) }
    ensures within { IfSome result (IsWithin (length buf.now)) }
{
    match find(buf, fields, "x-ports-key") {
        Occurs::Once(value) => Some(value),
        _ => None,
    }
}

/// Whether the connection ends after a request of this minor version of HTTP with these fields.
pub(crate) fn closes(minor: u8, buf: &[u8], fields: &[HeaderSpan]) -> bool
    requires { All (IsHeaderWithin (length buf.now)) fields.now }
    ensures { result ≡ ends_connection minor (named buf.now fields.now) }
{
    if minor == 0 {
        return true;
    }
    for field in fields {
        if is_closing(buf, *field) {
            return true;
        }
    }
    false
}

/// Whether a field of a head is a Connection that says `close`.
fn is_closing(buf: &[u8], field: HeaderSpan) -> bool
    requires { IsHeaderWithin (length buf.now) field }
    ensures { result ≡ is_closing (header_bytes buf.now field) }
{
    is_named(buf, field, "connection") && says_close(field.value.of(buf))
}

/// Whether one of the options in the value of a Connection field is `close`.
fn says_close(value: &[u8]) -> bool
    ensures { result ≡ list_any is_close_option (slice_split (λ b. b == 44) value.now) }
{
    value
        .split(|b| *b == b',')
        .any(|word| is_close_option(word))
}

/// Whether an option of a Connection field is `close`, in letters of either case.
fn is_close_option(word: &[u8]) -> bool
    ensures { result ≡ is_close_option word.now }
{
    trim_ows(word).eq_ignore_ascii_case(b"close")
}

/// The bytes of a field's value without the blanks and tabs at both ends.
fn trim_ows(bytes: &[u8]) -> &[u8]
    ensures { result.now ≡ trim_ows bytes.now }
{
    let mut start = 0;
    let mut end = bytes.len();
    while start < end && is_ows(bytes[start]) {
        start += 1;
    }
    while start < end && is_ows(bytes[end - 1]) {
        end -= 1;
    }
    &bytes[start..end]
}

/// Whether a byte of a field's value is a blank or a tab.
fn is_ows(byte: u8) -> bool
    ensures { result ≡ is_ows byte }
{
    byte == b' ' || byte == b'\t'
}

/// The number that the value of a Content-Length field writes in 1 to 18 digits. `None` for any other value.
pub(crate) fn length_of(value: &[u8]) -> Option<u64>
    ensures { result ≡ (if is_length value.now then Some (digits_value 10 value.now) else None) }
{
    if !is_length(value) {
        return None;
    }
    let Ok(digits) = str::from_utf8(value) else {
        return None;
    };
    digits.parse().ok()
}

/// Whether the value of a Content-Length field is 1 to 18 digits.
fn is_length(value: &[u8]) -> bool
    ensures { result ≡ is_length value.now }
{
    !value.is_empty() && value.len() <= 18 && all_digits(value)
}

/// Whether each byte of a field's value is a digit.
fn all_digits(value: &[u8]) -> bool
    ensures { result ≡ list_all is_ascii_digit value.now }
{
    value.iter().all(|byte| byte.is_ascii_digit())
}
