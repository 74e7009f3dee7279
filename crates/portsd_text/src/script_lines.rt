//! The lines of a script: the event that each writes.
ghost use Rattle.std.specs.Prelude.{◌≡◌, ◌==◌, ◌<◌, IfSome, option_map};
ghost use Rattle.std.specs.List.{position};
ghost use Rattle.portsd_text.specs.Escapes.{unescaped, escape_of, hex_escape, hex_value, ReadsByte, GivesBytes};
ghost use Rattle.portsd_text.specs.Numerals.{number_of};
ghost use Rattle.portsd_text.specs.Entries.{Turn, entry_of_event, event_of, at_blank, piece_of, wrote_of, worded, ReadsEvent};

use crate::numerals::read_number;
use ports_core::Event;
use std::alloc::{AllocError, Global};

/// The event that a line of a script writes. `None` if the line is in no form of a script. It fails only if
/// there is no memory for the bytes of a piece.
pub fn read_event(alloc: Global, line: &[u8]) -> Result<Option<Event>, AllocError>
    ensures { ReadsEvent result (event_of line.now) }
{
    if !line.iter().all(|byte| matches!(byte, b' '..=b'~')) {
        return Ok(None);
    }
    let Ok(text) = str::from_utf8(line) else {
        return Ok(None);
    };
    let Some((word, rest)) = text.split_once(' ') else {
        return Ok(None);
    };
    read_worded(alloc, word, rest)
}

/// The event that a word and what follows it write in a line of a script.
fn read_worded(alloc: Global, word: &str, rest: &str) -> Result<Option<Event>, AllocError>
    ensures { ReadsEvent result (worded word.now rest.now) }
{
    match word {
        "open" => Ok(read_number(rest).map(Event::Open)),
        "piece" => read_piece(alloc, rest),
        "end" => Ok(read_number(rest).map(Event::End)),
        "fault" => Ok(read_number(rest).map(Event::Fault)),
        "wrote" => Ok(read_wrote(rest)),
        "turn" => Ok(read_turn(rest)),
        _ => Ok(None),
    }
}

/// The event of a script's line `C TEXT`: bytes that came on a connection.
fn read_piece(alloc: Global, text: &str) -> Result<Option<Event>, AllocError>
    ensures { ReadsEvent result (at_blank piece_of text.now) }
{
    let Some((conn, bytes)) = text.split_once(' ') else {
        return Ok(None);
    };
    let Some(conn) = read_number(conn) else {
        return Ok(None);
    };
    match unescape(alloc, bytes.as_bytes())? {
        Some(bytes) => Ok(Some(Event::Piece(conn, bytes))),
        None => Ok(None),
    }
}

/// The event of a script's line `C N` or `C all`: bytes of a connection that were written.
fn read_wrote(text: &str) -> Option<Event>
    ensures { option_map entry_of_event result ≡ at_blank wrote_of text.now }
{
    let (conn, count) = text.split_once(' ')?;
    let conn = read_number(conn)?;
    if count == "all" {
        return Some(Event::Wrote(conn, None));
    }
    let count = read_number(count)?;
    Some(Event::Wrote(conn, Some(count as usize)))
}

/// The event of a script's line `T`: a turn of a tenant.
fn read_turn(text: &str) -> Option<Event>
    ensures { option_map entry_of_event result ≡ option_map Turn (number_of text.now) }
{
    let tenant = read_number(text)?;
    Some(Event::Turn(tenant as usize))
}

/// The bytes that the escaped text in a script's line encodes: `\r`, `\n`, `\t`, `\\`, and `\xhh` with two
/// hexadecimal digits of either case. `None` if a backslash begins none of these.
fn unescape(alloc: Global, text: &[u8]) -> Result<Option<Vec<u8>>, AllocError>
    ensures { GivesBytes result (unescaped text.now) }
{
    let mut bytes = Vec::with_capacity(alloc, text.len())?;
    let mut rest = text;
    while let Some(at) = first_backslash(rest) {
        bytes.extend_from_slice(&rest[..at])?;
        let Some((byte, left)) = read_escape(&rest[at + 1..]) else {
            return Ok(None);
        };
        bytes.push(byte)?;
        rest = left;
    }
    bytes.extend_from_slice(rest)?;
    Ok(Some(bytes))
}

/// The index of the first backslash in the text of a script's line.
fn first_backslash(text: &[u8]) -> Option<usize>
    ensures { result ≡ position (λ byte. byte == 92) text.now }
{
    text.iter().position(|byte| *byte == b'\\')
}

/// The byte that an escape in a script's line means, given the text after its backslash, and what is left of
/// the text.
fn read_escape(text: &[u8]) -> Option<(u8, &[u8])>
    ensures { ReadsByte result (escape_of text.now) }
{
    match text {
        [b'r', rest @ ..] => Some((b'\r', rest)),
        [b'n', rest @ ..] => Some((b'\n', rest)),
        [b't', rest @ ..] => Some((b'\t', rest)),
        [b'\\', rest @ ..] => Some((b'\\', rest)),
        [b'x', rest @ ..] => read_hex(rest),
        _ => None,
    }
}

/// The byte that the two hexadecimal digits of an escape in a script's line write, and what is left of the
/// text.
fn read_hex(text: &[u8]) -> Option<(u8, &[u8])>
    ensures { ReadsByte result (hex_escape text.now) }
{
    let [high, low, rest @ ..] = text else {
        return None;
    };
    let high = hex_value(*high)?;
    let low = hex_value(*low)?;
    Some((high * 16 + low, rest))
}

/// The value of a hexadecimal digit of either case in a script's line.
fn hex_value(digit: u8) -> Option<u8>
    ensures value { result ≡ hex_value digit }
    ensures small { IfSome result (λ value. value < 16) }
{
    match digit {
        b'0'..=b'9' => Some(digit - b'0'),
        b'a'..=b'f' => Some(digit - b'a' + 10),
        b'A'..=b'F' => Some(digit - b'A' + 10),
        _ => None,
    }
}
