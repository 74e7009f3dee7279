//! Single bytes, numbers and texts in the bytes of a row: how they are written and read.
ghost use Rattle.std.specs.Prelude.{◌≡◌, ◌++◌, ◌∷◌, [], string_bytes, OnOk};
ghost use Rattle.std.specs.Int.{w64};
ghost use Rattle.index_row.specs.Reads.{byte, number, stretch, text};
ghost use Rattle.index_row.specs.Answers.{Gives, Adds};

use crate::unread::Unread;
use std::alloc::{AllocError, Global};

/// Reads one byte from the bytes of a row.
#[tactic(auto, unfolding(crate::specs::Reads::byte))]
pub(crate) fn read_byte(bytes: &[u8]) -> Result<(u8, &[u8]), Unread>
    ensures { Gives (λ x. (x.0, x.1.now)) result (byte bytes.now) }
{
    match bytes {
        [] => Err(Unread::Damaged),
        [first, rest @ ..] => Ok((*first, rest)),
    }
}

/// Takes so many bytes off the bytes of a row.
#[tactic(auto, unfolding(crate::specs::Reads::stretch))]
fn read_stretch(bytes: &[u8], count: usize) -> Result<(&[u8], &[u8]), Unread>
    ensures { Gives (λ x. (x.0.now, x.1.now)) result (stretch count bytes.now) }
{
    if bytes.len() < count {
        return Err(Unread::Damaged);
    }
    Ok(bytes.split_at(count))
}

/// Reads a number of 64 bits from the bytes of a row.
#[tactic(auto, unfolding(crate::specs::Reads::stretch, crate::specs::Reads::number))]
pub(crate) fn read_number(bytes: &[u8]) -> Result<(u64, &[u8]), Unread>
    ensures { Gives (λ x. (x.0, x.1.now)) result (number w64 bytes.now) }
{
    if bytes.len() < 8 {
        return Err(Unread::Damaged);
    }
    let (front, rest) = bytes.split_at(8);
    let number = u64::from_le_bytes([
        front[0], front[1], front[2], front[3], front[4], front[5], front[6], front[7],
    ]);
    Ok((number, rest))
}

/// Reads a text from the bytes of a row, which lend it.
#[tactic(auto, unfolding(crate::specs::Reads::text))]
pub(crate) fn read_str(bytes: &[u8]) -> Result<(&str, &[u8]), Unread>
    ensures { Gives (λ x. (x.0.now, x.1.now)) result (text bytes.now) }
{
    let (count, rest) = read_number(bytes)?;
    let (front, rest) = read_stretch(rest, count as usize)?;
    match str::from_utf8(front) {
        Ok(text) => Ok((text, rest)),
        Err(_error) => Err(Unread::Damaged),
    }
}

/// Reads a text from the bytes of a row, as a copy.
pub(crate) fn read_text(alloc: Global, bytes: &[u8]) -> Result<(String, &[u8]), Unread>
    ensures { Gives (λ x. (string_bytes x.0, x.1.now)) result (text bytes.now) }
{
    let (text, rest) = read_str(bytes)?;
    Ok((String::from_str(alloc, text)?, rest))
}

/// Writes one byte into the bytes of a row.
pub(crate) fn write_byte(out: &mut Vec<u8>, value: u8) -> Result<(), AllocError>
    ensures { OnOk result (Adds byte out.old.items out.new.items value) }
{
    out.push(value)?;
    Ok(())
}

/// Writes a number of 64 bits into the bytes of a row.
pub(crate) fn write_number(out: &mut Vec<u8>, value: u64) -> Result<(), AllocError>
    ensures { OnOk result (Adds (number w64) out.old.items out.new.items value) }
{
    out.extend_from_slice(&value.to_le_bytes())?;
    Ok(())
}

/// Writes a text, its length first, into the bytes of a row.
pub(crate) fn write_text(out: &mut Vec<u8>, written: &str) -> Result<(), AllocError>
    ensures { OnOk result (Adds text out.old.items out.new.items written.now) }
{
    write_number(out, written.len() as u64)?;
    out.extend_from_slice(written.as_bytes())?;
    Ok(())
}
