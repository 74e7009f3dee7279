//! The scanner, which cuts a condition's text into tokens.
ghost use Rattle.std.specs.Prelude.{◌≡◌, ◌==◌, ◌<◌, ◌≤◌, ◌+◌, length, drop, option_map};
ghost use Rattle.std.specs.Prelude.{None, Some, slice_index, true, IfOk, IfSome};
ghost use Rattle.mk_cond_tree.specs.Tokens.{is_stop, call_of, tokens_of};
ghost use Rattle.mk_cond_tree.specs.Scanner.{begins, place_of_first, first_or_end, closing_place, blanks_end};
ghost use Rattle.mk_cond_tree.specs.Scanner.{word_at, quoted_side, sign_of_two_or_one, sign_of_two, token_at};

use crate::tokens::{Call, Comparison, Side, Token};
use mk_text::{Span, is_blank};
use std::alloc::{AllocError, Global};

/// The tokens of a condition in which dollars cover the references; `None` if it can't be cut into tokens.
/// The time is linear in the condition's length.
///
/// # Errors
///
/// `AllocError` if memory for the tokens runs out.
pub(crate) fn tokens(alloc: Global, bytes: &[u8]) -> Result<Option<Vec<Token>>, AllocError>
    ensures { IfOk result (λ found. option_map (λ tokens. tokens.items) found
        ≡ tokens_of bytes.now) }
{
    let mut found = Vec::new(alloc);
    let mut at = 0;
    while at < bytes.len() {
        if is_blank(bytes[at]) {
            at += 1;
        } else if let Some((token, end)) = token_at(bytes, at) {
            found.push(token)?;
            at = end;
        } else {
            return Ok(None);
        }
    }
    Ok(Some(found))
}

/// The token of a condition that begins at `at`, where there is no blank, and the place after it.
#[tactic(auto, unfolding(crate::specs::Scanner::token_at))]
fn token_at(bytes: &[u8], at: usize) -> Option<(Token, usize)>
    requires { at < length bytes.now }
    ensures token { result ≡ token_at at (slice_index bytes.now at) (drop (at + 1) bytes.now) }
    ensures within { IfSome result (λ found. (at < found.1) × (found.1 ≤ length bytes.now)) }
{
    match bytes[at] {
        b'(' => Some((Token::Left, at + 1)),
        b')' => Some((Token::Right, at + 1)),
        b'!' => sign(bytes, at, Token::Compare(Comparison::Unequal), Token::Not),
        b'<' => sign(
            bytes,
            at,
            Token::Compare(Comparison::AtMost),
            Token::Compare(Comparison::Less),
        ),
        b'>' => sign(
            bytes,
            at,
            Token::Compare(Comparison::AtLeast),
            Token::Compare(Comparison::Greater),
        ),
        b'=' => pair(bytes, at, b'=', Token::Compare(Comparison::Equal)),
        b'&' => pair(bytes, at, b'&', Token::And),
        b'|' => pair(bytes, at, b'|', Token::Or),
        b'"' => quoted_side(bytes, at + 1),
        _ => word_at(bytes, at),
    }
}

/// Whether this byte is at this place of a condition's text.
fn is_at(bytes: &[u8], at: usize, byte: u8) -> bool
    requires { at ≤ length bytes.now }
    ensures value { result ≡ begins byte (drop at bytes.now) }
    ensures within { result ≡ true → at < length bytes.now }
{
    at < bytes.len() && bytes[at] == byte
}

/// The token of a sign at a place of a condition (`with_equals` if `=` follows its first byte, else `alone`),
/// and the place after it.
fn sign(bytes: &[u8], at: usize, with_equals: Token, alone: Token) -> Option<(Token, usize)>
    requires { at < length bytes.now }
    ensures token { result ≡ sign_of_two_or_one at (begins 61 (drop (at + 1) bytes.now)) with_equals alone }
    ensures within { IfSome result (λ found. (at < found.1) × (found.1 ≤ length bytes.now)) }
{
    if is_at(bytes, at + 1, b'=') {
        Some((with_equals, at + 2))
    } else {
        Some((alone, at + 1))
    }
}

/// The token of a sign of two bytes, as `&&`, at a place of a condition, if `second` follows its first byte.
fn pair(bytes: &[u8], at: usize, second: u8, token: Token) -> Option<(Token, usize)>
    requires { at < length bytes.now }
    ensures token { result ≡ sign_of_two at (begins second (drop (at + 1) bytes.now)) token }
    ensures within { IfSome result (λ found. (at < found.1) × (found.1 ≤ length bytes.now)) }
{
    if is_at(bytes, at + 1, second) {
        Some((token, at + 2))
    } else {
        None
    }
}

/// The quoted side of a condition whose text begins at `start`, and the place after it; `None` if no quote
/// closes it.
fn quoted_side(bytes: &[u8], start: usize) -> Option<(Token, usize)>
    requires { start ≤ length bytes.now }
    ensures token { result ≡ quoted_side start (place_of_first (λ b. b == 34) start (drop start bytes.now)) }
    ensures within { IfSome result (λ found. (start < found.1) × (found.1 ≤ length bytes.now)) }
{
    for end in start..bytes.len() {
        if bytes[end] == b'"' {
            return Some((Token::Side(Side::Quoted(Span { start, end })), end + 1));
        }
    }
    None
}

/// The token of a word at a place of a condition (a side without quotes, or a call), and the place after it.
/// If the parenthesis of a call isn't closed, it is `None`.
fn word_at(bytes: &[u8], at: usize) -> Option<(Token, usize)>
    requires { at < length bytes.now }
    ensures token { result ≡ word_at at (slice_index bytes.now at) (drop (at + 1) bytes.now) }
    ensures within { IfSome result (λ found. (at < found.1) × (found.1 ≤ length bytes.now)) }
{
    let end = side_end(bytes, at + 1);
    let word = Some((Token::Side(Side::Bare(Span { start: at, end })), end));
    let Some(call) = call_of(&bytes[at..end]) else {
        return word;
    };
    let left = blanks_end(bytes, end);
    if !is_at(bytes, left, b'(') {
        return word;
    }
    match closing_place(bytes, left + 1) {
        Some(close) => {
            let argument = Span {
                start: left + 1,
                end: close,
            };
            Some((Token::Call(call, argument), close + 1))
        }
        None => None,
    }
}

/// Whether a byte ends a side without quotes in a condition, as a blank, a parenthesis or a sign does.
fn is_stop(byte: u8) -> bool
    ensures { result ≡ is_stop byte }
{
    is_blank(byte)
        || byte == b'('
        || byte == b')'
        || byte == b'!'
        || byte == b'='
        || byte == b'<'
        || byte == b'>'
        || byte == b'&'
        || byte == b'|'
        || byte == b'"'
}

/// The end of the side without quotes that goes on at this place of a condition.
fn side_end(bytes: &[u8], start: usize) -> usize
    requires { start ≤ length bytes.now }
    ensures place { result ≡ first_or_end is_stop start (drop start bytes.now) }
    ensures within { (start ≤ result) × (result ≤ length bytes.now) }
{
    for at in start..bytes.len() {
        if is_stop(bytes[at]) {
            return at;
        }
    }
    bytes.len()
}

/// The end of the blanks that begin at this place of a condition.
fn blanks_end(bytes: &[u8], start: usize) -> usize
    requires { start ≤ length bytes.now }
    ensures place { result ≡ blanks_end start (drop start bytes.now) }
    ensures within { (start ≤ result) × (result ≤ length bytes.now) }
{
    for at in start..bytes.len() {
        if !is_blank(bytes[at]) {
            return at;
        }
    }
    bytes.len()
}

/// The call of a condition with this word, as `defined` or `exists`.
fn call_of(word: &[u8]) -> Option<Call>
    ensures { result ≡ call_of word.now }
{
    if word == b"defined".as_slice() {
        Some(Call::Defined)
    } else if word == b"empty".as_slice() {
        Some(Call::Empty)
    } else if word == b"exists".as_slice() {
        Some(Call::Exists)
    } else if word == b"make".as_slice() {
        Some(Call::Make)
    } else if word == b"target".as_slice() {
        Some(Call::Target)
    } else {
        None
    }
}

/// The place in a condition of the parenthesis that closes the one directly before `start`.
fn closing_place(bytes: &[u8], start: usize) -> Option<usize>
    requires { start ≤ length bytes.now }
    ensures place { result ≡ closing_place start 0 (drop start bytes.now) }
    ensures within { IfSome result (λ at. (start ≤ at) × (at < length bytes.now)) }
{
    let mut depth: usize = 0;
    for at in start..bytes.len() {
        match bytes[at] {
            b'(' => depth += 1,
            b')' if depth == 0 => return Some(at),
            b')' => depth -= 1,
            _ => {}
        }
    }
    None
}
