//! What a path leads to, in the bytes of a row: how it is written and read.
ghost use Rattle.std.specs.Prelude.{◌≡◌, OnOk};
ghost use Rattle.port_index.specs.Seen.{row_seen};
ghost use Rattle.index_row.specs.Rows.{outcome, outcome_of_kind};
ghost use Rattle.index_row.specs.Answers.{Gives, Adds};

use crate::faults::{read_fault, write_fault};
use crate::ports::{read_port, write_port};
use crate::scalars::{read_byte, write_byte};
use crate::text_lists::{read_texts, write_texts};
use crate::unread::Unread;
use port_index::Row;
use std::alloc::{AllocError, Global};

/// Reads what a path leads to from the bytes of a row.
#[tactic(auto, unfolding(crate::specs::Rows::outcome))]
pub(crate) fn read_outcome(alloc: Global, bytes: &[u8]) -> Result<(Row, &[u8]), Unread>
    ensures { Gives (λ x. (row_seen x.0, x.1.now)) result (outcome bytes.now) }
{
    let (kind, rest) = read_byte(bytes)?;
    read_after_kind(alloc, kind, rest)
}

/// Reads what a path leads to from the bytes of a row that follow the number of its kind.
fn read_after_kind(alloc: Global, kind: u8, bytes: &[u8]) -> Result<(Row, &[u8]), Unread>
    ensures { Gives (λ x. (row_seen x.0, x.1.now)) result (outcome_of_kind kind bytes.now) }
{
    match kind {
        0 => Ok((Row::Absent, bytes)),
        1 => {
            let (fault, rest) = read_fault(alloc, bytes)?;
            Ok((Row::Faulty(fault), rest))
        }
        2 => {
            let (port, rest) = read_port(alloc, bytes)?;
            Ok((Row::Port(port), rest))
        }
        3 => {
            let (fault, rest) = read_fault(alloc, bytes)?;
            Ok((Row::BadPort(fault), rest))
        }
        4 => {
            let (words, rest) = read_texts(alloc, bytes)?;
            Ok((Row::Lists(words), rest))
        }
        5 => {
            let (fault, rest) = read_fault(alloc, bytes)?;
            Ok((Row::BadList(fault), rest))
        }
        6 => Ok((Row::FlavoredList, bytes)),
        7 => Ok((Row::Other, bytes)),
        _ => Err(Unread::Damaged),
    }
}

/// Writes what a path leads to into the bytes of a row.
pub(crate) fn write_outcome(
    alloc: Global,
    out: &mut Vec<u8>,
    written: &Row,
) -> Result<(), AllocError>
    ensures { OnOk result (Adds outcome out.old.items out.new.items (row_seen written.now)) }
{
    match written {
        Row::Absent => write_byte(out, 0),
        Row::Faulty(fault) => {
            write_byte(out, 1)?;
            write_fault(out, fault)
        }
        Row::Port(port) => {
            write_byte(out, 2)?;
            write_port(alloc, out, port)
        }
        Row::BadPort(fault) => {
            write_byte(out, 3)?;
            write_fault(out, fault)
        }
        Row::Lists(words) => {
            write_byte(out, 4)?;
            write_texts(out, words)
        }
        Row::BadList(fault) => {
            write_byte(out, 5)?;
            write_fault(out, fault)
        }
        Row::FlavoredList => write_byte(out, 6),
        Row::Other => write_byte(out, 7),
    }
}
