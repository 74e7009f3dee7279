//! The transcript of a run: the lines that are printed of its events.
ghost use Rattle.std.specs.Prelude.{◌≡◌, true};
ghost use Rattle.std.specs.List.{position};
ghost use Rattle.std.specs.Str.{IsUtf8};
ghost use Rattle.portsd_text.specs.Escapes.{is_escaped, escape, escaped_bytes, hex_text};
ghost use Rattle.portsd_text.specs.Entries.{entry_of_event};
ghost use Rattle.portsd_text.specs.Scripts.{numbered};
ghost use Rattle.portsd_text.specs.Transcript.{sent_line, told_line, refused_line, closed_line};
ghost use Rattle.portsd_text.specs.Transcript.{refused_word, printed, transcript, PrintsText, AddsText};

use crate::script::Script;
use ports_core::{Event, Refused, Step, Tell};
use std::alloc::{AllocError, Global};
use std::fmt::Write;

/// The transcript of a run: the lines that it prints. For each event they are, in this order, the bytes that
/// it sent, its reply, the refusal of a connection, and the connection that closed. Each line begins with the
/// number of the event's line. Events that have no step print nothing. It fails only if there is no memory
/// for the text.
pub fn transcript_text(alloc: Global, script: &Script, steps: &[Step]) -> Result<String, AllocError>
    ensures { PrintsText result (transcript (numbered script.now) steps.now) }
{
    let mut text = String::new(alloc);
    for (index, step) in steps.iter().enumerate() {
        if let Some((line, event)) = script.entry(index) {
            push_step(&mut text, line, event, step)?;
        }
    }
    Ok(text)
}

/// Adds all lines of one event to the transcript of a run.
fn push_step(text: &mut String, line: u64, event: &Event, step: &Step) -> Result<(), AllocError>
    ensures { AddsText result text.old text.new (printed line (entry_of_event event.now) step.now) }
{
    let told = &step.told;
    push_sent(text, line, event, step.sent.as_slice())?;
    push_told(text, line, &told.reply)?;
    push_refused(text, line, told.refused)?;
    push_closed(text, line, told.closed)
}

/// Adds the bytes that a Wrote took off its connection to the transcript, if there are some.
fn push_sent(text: &mut String, line: u64, event: &Event, bytes: &[u8]) -> Result<(), AllocError>
    ensures { AddsText result text.old text.new (sent_line line (entry_of_event event.now) bytes.now) }
{
    let Event::Wrote(conn, _) = event else {
        return Ok(());
    };
    if bytes.is_empty() {
        return Ok(());
    }
    write!(text, "{line} sent {conn} ")?;
    push_escaped(text, bytes)?;
    text.push_str("\n")
}

/// Adds a reply to the transcript, if there is one: its tenant, its connection and the number of its status.
fn push_told(text: &mut String, line: u64, reply: &Option<Tell>) -> Result<(), AllocError>
    ensures { AddsText result text.old text.new (told_line line reply.now) }
{
    let Some(tell) = reply else {
        return Ok(());
    };
    let conn = tell.conn;
    let reply = &tell.reply;
    let status = reply.status.as_u16();
    match tell.tenant {
        Some(tenant) => writeln!(text, "{line} told {tenant} {conn} {status}"),
        None => writeln!(text, "{line} told - {conn} {status}"),
    }
}

/// Adds a connection that wasn't opened to the transcript, if there is one.
fn push_refused(text: &mut String, line: u64, refused: Option<Refused>) -> Result<(), AllocError>
    ensures { AddsText result text.old text.new (refused_line line refused) }
{
    let Some(refused) = refused else {
        return Ok(());
    };
    let why = refused_word(refused);
    writeln!(text, "{line} refused {why}")
}

/// The word in a transcript that says why a connection wasn't opened.
fn refused_word(refused: Refused) -> &'static str
    ensures { result.now ≡ refused_word refused }
{
    match refused {
        Refused::Connections => "connections",
        Refused::Memory(_) => "memory",
    }
}

/// Adds the connection that closed to the transcript, if there is one.
fn push_closed(text: &mut String, line: u64, closed: Option<u64>) -> Result<(), AllocError>
    ensures { AddsText result text.old text.new (closed_line line closed) }
{
    let Some(conn) = closed else {
        return Ok(());
    };
    writeln!(text, "{line} closed {conn}")
}

/// Adds bytes to the transcript as a script writes them, with escapes.
fn push_escaped(text: &mut String, bytes: &[u8]) -> Result<(), AllocError>
    ensures { AddsText result text.old text.new (escaped_bytes bytes.now) }
{
    let mut rest = bytes;
    while let Some(at) = first_escaped(rest) {
        push_text(text, &rest[..at])?;
        push_escape(text, rest[at])?;
        rest = &rest[at + 1..];
    }
    push_text(text, rest)
}

/// The index of the first byte that a transcript prints as an escape.
fn first_escaped(bytes: &[u8]) -> Option<usize>
    ensures { result ≡ position is_escaped bytes.now }
{
    bytes.iter().position(|byte| is_escaped(*byte))
}

/// Whether a transcript prints a byte as an escape: it does so for the backslash, and for each byte that
/// isn't from 32 to 126.
fn is_escaped(byte: u8) -> bool
    ensures { result ≡ is_escaped byte }
{
    byte == b'\\' || !matches!(byte, b' '..=b'~')
}

/// Adds bytes that are a text to the transcript, as they are.
fn push_text(text: &mut String, bytes: &[u8]) -> Result<(), AllocError>
    requires { IsUtf8 bytes.now }
    ensures { AddsText result text.old text.new bytes.now }
{
    if bytes.is_empty() {
        return Ok(());
    }
    text.push_str(str::from_utf8(bytes).unwrap())
}

/// Adds a byte to the transcript as an escape.
fn push_escape(text: &mut String, byte: u8) -> Result<(), AllocError>
    requires { is_escaped byte ≡ true }
    ensures { AddsText result text.old text.new (escape byte) }
{
    match byte {
        b'\\' => text.push_str("\\\\"),
        b'\r' => text.push_str("\\r"),
        b'\n' => text.push_str("\\n"),
        b'\t' => text.push_str("\\t"),
        other => push_hex(text, other),
    }
}

/// Adds a byte to the transcript by its two hexadecimal digits.
fn push_hex(text: &mut String, byte: u8) -> Result<(), AllocError>
    ensures { AddsText result text.old text.new (hex_text byte) }
{
    write!(text, "\\x{byte:02x}")
}
