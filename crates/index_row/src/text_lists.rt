//! Lists of texts in the bytes of a row: how they are written and read.
ghost use Rattle.std.specs.Prelude.{◌≡◌, length, map, string_bytes, OnOk};
ghost use Rattle.index_row.specs.Reads.{text, texts, counted_items};
ghost use Rattle.index_row.specs.Answers.{Gives, Adds};

use crate::scalars::{read_number, read_text, write_number, write_text};
use crate::unread::Unread;
use std::alloc::{AllocError, Global};

/// Reads a list of texts, its length first, from the bytes of a row.
#[tactic(auto, unfolding(crate::specs::Reads::list))]
pub(crate) fn read_texts(alloc: Global, bytes: &[u8]) -> Result<(Vec<String>, &[u8]), Unread>
    ensures { Gives (λ x. (map string_bytes x.0.items, x.1.now)) result (texts bytes.now) }
{
    let (count, rest) = read_number(bytes)?;
    texts_in(alloc, count, rest)
}

/// Reads so many texts from the bytes of a row.
fn texts_in(alloc: Global, count: u64, bytes: &[u8]) -> Result<(Vec<String>, &[u8]), Unread>
    ensures { Gives (λ x. (map string_bytes x.0.items, x.1.now)) result
        (counted_items text count bytes.now) }
{
    let mut found = Vec::with_capacity(alloc, usize::min(count as usize, bytes.len()))?;
    let mut rest = bytes;
    for _ in 0..count {
        let (text, after) = read_text(alloc, rest)?;
        found.push(text)?;
        rest = after;
    }
    Ok((found, rest))
}

/// Writes a list of texts, its length first, into the bytes of a row.
pub(crate) fn write_texts(out: &mut Vec<u8>, written: &[String]) -> Result<(), AllocError>
    ensures { OnOk result
        (Adds texts out.old.items out.new.items (map string_bytes written.now)) }
{
    write_number(out, written.len() as u64)?;
    put_texts(out, written)
}

/// Writes texts, one after another, into the bytes of a row.
fn put_texts(out: &mut Vec<u8>, written: &[String]) -> Result<(), AllocError>
    ensures { OnOk result (Adds (counted_items text (length written.now))
        out.old.items out.new.items (map string_bytes written.now)) }
{
    for text in written {
        write_text(out, text)?;
    }
    Ok(())
}
