//! Known rows by their paths, noted with the names of the files for which they asked.
ghost use Rattle.std.specs.Prelude.{◌≡◌, ℕ, List, Some, None, map, string_bytes, IfOk, OnOk, OnErr};
ghost use Rattle.std.specs.BTreeMap.{get_by_text};
ghost use Rattle.std.specs.BTreeSet.{contains_text};
ghost use Rattle.std.specs.List.{list_any};
ghost use Rattle.std.specs.Option.{option_copied};
ghost use Rattle.std.specs.Str.{bytes_eq};
ghost use Rattle.port_index.specs.AskedNames.{AreNotedAskers, asks_in, NotesRow, KeepsNoted, TakesRowOut};
ghost use Rattle.port_index.specs.AskedNames.{AreAsking, AddsAskers, AddsAskersOf};

use crate::asked_names::AskedNames;
use crate::path_outcomes::Row;
use std::alloc::{AllocError, Global};
use std::collections::{BTreeMap, BTreeSet};
use text_parts::put_in_order;

/// A row of the index that is known.
#[derive(Debug, Drop)]
pub struct KnownRow {
    /// What the path leads to.
    pub row: Row,
    /// The names of the files that were asked for to learn that.
    pub names: Vec<String>,
    /// How many bytes the row has where it is stored.
    pub size: u64,
}

/// Known rows by their paths. Which of them asked for a file is found without a look at the others, since
/// rows are noted with the names for which they asked.
#[derive(Debug, Drop)]
pub(crate) struct NotedRows {
    pub(crate) rows: BTreeMap<String, KnownRow>,
    asked: AskedNames,
    ghost noted: { AreNotedAskers rows asked },
}

impl NotedRows {
    /// No noted rows. It takes no memory.
    pub(crate) fn new(alloc: Global) -> NotedRows
        ensures { (path : List ℕ) → get_by_text result.rows path ≡ None }
    {
        NotedRows {
            rows: BTreeMap::new(alloc),
            asked: AskedNames::new(alloc),
        }
    }

    /// Gives this path this row, noted with the names for which it asked, whether or not the path had a row.
    /// If memory runs out, it fails, and all rows stay as they are.
    pub(crate) fn put(&mut self, path: String, row: KnownRow) -> Result<(), AllocError>
        ensures ok { OnOk result (NotesRow path row self.old.rows self.new.rows) }
        ensures err { OnErr result (KeepsNoted self.old.rows self.new.rows) }
    {
        self.asked.add_all(&row.names, path.as_str())?;
        match self.rows.insert(path, row) {
            Ok(_before) => Ok(()),
            Err(failed) => Err(failed.into()),
        }
    }

    /// Takes out the noted row of this path, if it has one, and gives it.
    pub(crate) fn take_out(&mut self, path: &str) -> Option<KnownRow>
        ensures taken { result ≡ get_by_text self.old.rows path.now }
        ensures others { TakesRowOut path.now self.old.rows self.new.rows }
    {
        let taken = self.rows.remove(path)?;
        self.asked.remove_all(&taken.names, path);
        Some(taken)
    }

    /// The paths of the noted rows for which a file of one of these names was asked, in the order of their
    /// bytes. It fails only if memory runs out.
    pub(crate) fn paths_asking(
        &self,
        alloc: Global,
        names: &BTreeSet<String>,
    ) -> Result<Vec<String>, AllocError>
        ensures { IfOk result (AreAsking names.now self.now.rows) }
    {
        let mut paths = Vec::new(alloc);
        for name in names {
            self.add_asking(alloc, name.as_str(), &mut paths)?;
        }
        put_in_order(&mut paths);
        Ok(paths)
    }

    /// Adds the paths of the noted rows for which the file of this name was asked.
    fn add_asking(
        &self,
        alloc: Global,
        name: &str,
        paths: &mut Vec<String>,
    ) -> Result<(), AllocError>
        ensures { OnOk result (AddsAskers name.now self.now.rows paths.old paths.new) }
    {
        match self.asked.paths_of(name) {
            Some(noted) => self.add_those_asking(alloc, name, noted, paths),
            None => Ok(()),
        }
    }

    /// Adds those of these noted paths for whose rows the file of this name was asked.
    fn add_those_asking(
        &self,
        alloc: Global,
        name: &str,
        noted: &BTreeSet<String>,
        paths: &mut Vec<String>,
    ) -> Result<(), AllocError>
        ensures { OnOk result (AddsAskersOf noted.now name.now self.now.rows paths.old paths.new) }
    {
        for path in noted {
            if self.asks(path.as_str(), name) {
                paths.push(String::from_str(alloc, path.as_str())?)?;
            }
        }
        Ok(())
    }

    /// Whether the noted row of this path, if it has one, asked for the file of this name.
    fn asks(&self, path: &str, name: &str) -> bool
        ensures { result ≡ asks_in (get_by_text self.now.rows path.now) name.now }
    {
        match self.rows.get(path) {
            Some(known) => has_name(&known.names, name),
            None => false,
        }
    }
}

/// Whether a name is one of those for which a row asked.
pub(crate) fn has_name(names: &[String], name: &str) -> bool
    ensures { result ≡ list_any (λ one. bytes_eq (string_bytes one) name.now) names.now }
{
    names.iter().any(|one| one.as_str() == name)
}
