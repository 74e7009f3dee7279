//! Alike rows: old and new rows of a path that name the same paths.
ghost use Rattle.std.specs.Prelude.{◌≡◌, ℕ, List, true, map, string_bytes};
ghost use Rattle.port_index.specs.Alike.{NameTheSame, NamesNone, dependency_items};
ghost use Rattle.port_index.specs.Seen.{row_seen};

use crate::path_outcomes::Row;
use port_rules::Depend;

/// Whether two rows of one path are alike: they have the same items, if they are ports, or the same words, if
/// they list directories. Then they name the same paths. So do rows that are neither.
pub fn name_alike(old: &Row, new: &Row) -> bool
    ensures { result ≡ true → NameTheSame old.now new.now }
{
    match old {
        Row::Port(port) => match new {
            Row::Port(other) => have_same_items(port.depends(), other.depends()),
            _ => false,
        },
        Row::Lists(words) => match new {
            Row::Lists(others) => are_same(words, others),
            _ => false,
        },
        _ => names_none(new),
    }
}

/// Whether a row is neither a port nor a list, and so names no path.
fn names_none(row: &Row) -> bool
    ensures { result ≡ true → (path : List ℕ) → NamesNone path (row_seen row.now) }
{
    !matches!(row, Row::Port(_) | Row::Lists(_))
}

/// Whether the dependencies in two alike rows have the same items, in the same order.
fn have_same_items(old: &[Depend], new: &[Depend]) -> bool
    ensures { result ≡ true → dependency_items new.now ≡ dependency_items old.now }
{
    if old.len() != new.len() {
        return false;
    }
    for place in 0..old.len() {
        if old[place].item() != new[place].item() {
            return false;
        }
    }
    true
}

/// Whether two lists have the same texts, in the same order, as alike rows have.
pub fn are_same(old: &[String], new: &[String]) -> bool
    ensures { result ≡ true → map string_bytes new.now ≡ map string_bytes old.now }
{
    old == new
}
