//! Rows of the index as bytes: a whole row is written and read.
ghost use Rattle.std.specs.Prelude.{◌≡◌, Some, option_map, IfOk, OnOk};
ghost use Rattle.index_row.specs.Rows.{row, row_of};
ghost use Rattle.index_row.specs.Seen.{kept_row_seen};
ghost use Rattle.index_row.specs.Answers.{Gives, Adds};

use crate::outcomes::{read_outcome, write_outcome};
use crate::scalars::{read_number, write_number};
use crate::text_lists::{read_texts, write_texts};
use crate::unread::Unread;
use port_index::Finding;
use std::alloc::{AllocError, Global};

/// How many bytes a row that is written is given at first. Most rows need no more.
const ROW_CAPACITY: usize = 1_024;

/// A row of the index: what a path leads to, and what was asked to learn that.
#[derive(Debug, Drop)]
pub struct KeptRow {
    /// What the path leads to, with the units that it cost to learn that.
    pub found: Finding,
    /// The names of the files that were looked at or asked about, in order.
    pub names: Vec<String>,
}

/// The bytes of a row of the index. `read_row` reads them as this row.
///
/// It fails only if memory runs out.
pub fn write_row(alloc: Global, row: &KeptRow) -> Result<Vec<u8>, AllocError>
    ensures { IfOk result (λ text. row_of text.items ≡ Some (kept_row_seen row.now)) }
{
    let mut out = Vec::with_capacity(alloc, ROW_CAPACITY)?;
    write_parts(alloc, &mut out, row)?;
    Ok(out)
}

/// The row of the index that bytes are; `None` if they are damaged. It fails only if memory runs out.
pub fn read_row(alloc: Global, text: &[u8]) -> Result<Option<KeptRow>, AllocError>
    ensures { IfOk result (λ found. option_map kept_row_seen found ≡ row_of text.now) }
{
    match read_whole(alloc, text) {
        Ok(kept) => Ok(Some(kept)),
        Err(Unread::Damaged) => Ok(None),
        Err(Unread::Memory(refused)) => Err(refused.into()),
    }
}

/// Reads the row that these bytes are, to their end.
#[tactic(auto, unfolding(crate::specs::Rows::row_of))]
fn read_whole(alloc: Global, text: &[u8]) -> Result<KeptRow, Unread>
    ensures { Gives kept_row_seen result (row_of text.now) }
{
    let (kept, rest) = read_parts(alloc, text)?;
    if !rest.is_empty() {
        return Err(Unread::Damaged);
    }
    Ok(kept)
}

/// Reads the parts of a row from bytes: what the path leads to, what it cost, and the names that were asked
/// about.
#[tactic(auto, unfolding(crate::specs::Rows::row))]
fn read_parts(alloc: Global, bytes: &[u8]) -> Result<(KeptRow, &[u8]), Unread>
    ensures { Gives (λ x. (kept_row_seen x.0, x.1.now)) result (row bytes.now) }
{
    let (found, rest) = read_outcome(alloc, bytes)?;
    let (cost, rest) = read_number(rest)?;
    let (names, rest) = read_texts(alloc, rest)?;
    let found = Finding { row: found, cost };
    Ok((KeptRow { found, names }, rest))
}

/// Writes the parts of a row into bytes: what the path leads to, what it cost, and the names that were asked
/// about.
fn write_parts(alloc: Global, out: &mut Vec<u8>, kept: &KeptRow) -> Result<(), AllocError>
    ensures { OnOk result (Adds row out.old.items out.new.items (kept_row_seen kept.now)) }
{
    write_outcome(alloc, out, &kept.found.row)?;
    write_number(out, kept.found.cost)?;
    write_texts(out, &kept.names)
}
