//! The rows of the index in memory, by their paths: what paths lead to, as far as that is known.
ghost use Rattle.std.specs.Prelude.{◌≡◌, ◌+◌, ℕ, List, Option, Some, None, map, option_map, string_bytes};
ghost use Rattle.std.specs.Prelude.{IfOk, OnOk, OnErr};
ghost use Rattle.std.specs.BTreeMap.{get_by_text};
ghost use Rattle.std.specs.BTreeSet.{contains_text};
ghost use Rattle.std.specs.List.{All, list_any};
ghost use Rattle.port_index.specs.Finders.{FindsRow, IsEntryOf, IsFinderOf};
ghost use Rattle.turn_amounts.specs.Spent.{counted};
ghost use Rattle.port_index.specs.PathOutcomes.{PathOutcome};
ghost use Rattle.port_index.specs.Seen.{entries_in, known_seen, names_said_in, names_seen, row_lent, said_in, size_of};
ghost use Rattle.port_index.specs.Seen.{HaveAsked, PutsSaid, PutsEntry, SaysSame, TakesSaidOut};

use crate::noted_rows::{KnownRow, NotedRows, has_name};
use crate::path_outcomes::Row;
use std::alloc::{AllocError, Global};
use std::cmp::Ordering;
use std::collections::BTreeSet;
use std::collections::btree_map::Range;

/// The rows of the index in memory, by the canonical paths that lead to them, and their size: the bytes of
/// all rows that were put. It stops at 2^64 - 1.
#[derive(Debug, Drop)]
pub struct MemoryRows {
    pub(crate) noted: NotedRows,
    size: u64,
}

impl MemoryRows {
    /// A map in memory without rows. It takes no memory.
    pub fn new(alloc: Global) -> MemoryRows
        ensures none { (path : List ℕ) → said_in result path ≡ None }
        ensures size { size_of result ≡ 0 }
    {
        MemoryRows {
            noted: NotedRows::new(alloc),
            size: 0,
        }
    }

    /// The row in memory of this path, if it has one.
    pub fn get(&self, path: &str) -> Option<&Row>
        ensures { row_lent result ≡ entries_in self.now path.now }
    {
        match self.noted.rows.get(path) {
            Some(known) => Some(&known.row),
            None => None,
        }
    }

    /// A finder of the rows in memory by their paths.
    pub fn finder(&self) -> RowFinder<'_>
        ensures { IsFinderOf self.now result }
    {
        let mut left = self.noted.rows.range(..);
        RowFinder {
            rows: self,
            ahead: left.next(),
            left,
        }
    }

    /// The paths of the rows in memory for which a file of one of these names was asked. It fails only if
    /// memory runs out.
    pub fn paths_asking(
        &self,
        alloc: Global,
        names: &BTreeSet<String>,
    ) -> Result<Vec<String>, AllocError>
        ensures { IfOk result (HaveAsked names.now self.now) }
    {
        self.noted.paths_asking(alloc, names)
    }

    /// How many bytes all rows in memory have that were put.
    pub fn size(&self) -> u64
        ensures { result ≡ size_of self.now }
    {
        self.size
    }

    /// Gives this path this row in memory, whether or not it had one. If memory runs out, it fails, and all
    /// rows stay as they are.
    pub fn put(&mut self, path: String, known: KnownRow) -> Result<(), AllocError>
        ensures says { OnOk result (PutsSaid path known self.old self.new) }
        ensures ok { OnOk result (PutsEntry path known.row self.old self.new) }
        ensures size { OnOk result (size_of self.new ≡ counted (size_of self.old + known.size)) }
        ensures err { OnErr result (SaysSame self.old self.new) }
        ensures err_size { OnErr result (size_of self.new ≡ size_of self.old) }
    {
        let size = known.size;
        self.noted.put(path, known)?;
        self.size = self.size.saturating_add(size);
        Ok(())
    }

    /// Takes the row of this path out of memory, if it has one, and gives it.
    pub fn take_out(&mut self, path: &str) -> Option<KnownRow>
        ensures taken { option_map known_seen result ≡ said_in self.old path.now }
        ensures others { TakesSaidOut path.now self.old self.new }
        ensures size { size_of self.new ≡ size_of self.old }
    {
        self.noted.take_out(path)
    }
}

/// Finds rows in memory by their paths. For paths in the order of their bytes, all take one pass over the
/// rows; any other path is looked up.
#[derive(Drop)]
pub struct RowFinder<'a> {
    rows: &'a MemoryRows,
    ahead: Option<(&'a String, &'a KnownRow)>,
    left: Range<'a, String, KnownRow>,
}

impl<'a> RowFinder<'a> {
    /// The row in memory of this path, if it has one.
    pub fn get(&mut self, path: &str) -> Option<&'a Row>
        ensures row { FindsRow path.now self.old result }
        ensures finder { (rows : MemoryRows) → IsFinderOf rows self.old → IsFinderOf rows self.new }
    {
        if let Some((key, known)) = self.ahead {
            if key.as_str() == path {
                self.ahead = self.left.next();
                return Some(&known.row);
            }
        }
        self.search(path)
    }

    /// The row in memory of a path that needn't be the next one, if it has one.
    fn search(&mut self, path: &str) -> Option<&'a Row>
        ensures row { FindsRow path.now self.old result }
        ensures finder { (rows : MemoryRows) → IsFinderOf rows self.old → IsFinderOf rows self.new }
    {
        while let Some((key, known)) = self.ahead {
            match key.as_str().cmp(path) {
                Ordering::Less => self.ahead = self.left.next(),
                Ordering::Equal => {
                    self.ahead = self.left.next();
                    return Some(&known.row);
                }
                Ordering::Greater => break,
            }
        }
        self.rows.get(path)
    }
}

/// Whether a row in memory asked for one of the other names.
pub fn is_one_among(names: &[String], others: &BTreeSet<String>) -> bool
    ensures { result ≡ list_any (λ name. contains_text others.now (string_bytes name)) names.now }
{
    match others.first() {
        Some(only) if others.len() == 1 => has_name(names, only.as_str()),
        _ => names.iter().any(|name| others.contains(name.as_str())),
    }
}
