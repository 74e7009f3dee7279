//! The names of the files for which rows asked, each with the paths of these rows.
ghost use Rattle.std.specs.Prelude.{◌≡◌, true, false, ℕ, List, None, OnOk, OnErr, string_bytes};
ghost use Rattle.std.specs.BTreeMap.{get_by_text};
ghost use Rattle.std.specs.BTreeSet.{contains_text};
ghost use Rattle.std.specs.List.{list_any};
ghost use Rattle.std.specs.Option.{option_copied};
ghost use Rattle.std.specs.Str.{bytes_eq};
ghost use Rattle.port_index.specs.AskedNames.{is_noted, AddsNote, NotesOneLess, NotesSame, NotesAll, AreNotedWith, NotesText};
ghost use Rattle.port_index.specs.AskedNames.{KeepsNotes, KeepsOtherNotes};

use std::alloc::{AllocError, Global};
use std::collections::{BTreeMap, BTreeSet};

/// The names of files for which rows asked, each with the paths of the rows that asked.
#[derive(Debug, Drop)]
pub(crate) struct AskedNames {
    alloc: Global,
    paths: BTreeMap<String, BTreeSet<String>>,
}

impl AskedNames {
    /// No names for which a row asked. It takes no memory.
    pub(crate) fn new(alloc: Global) -> AskedNames
        ensures { (name path : List ℕ) → is_noted result name path ≡ false }
    {
        AskedNames {
            alloc,
            paths: BTreeMap::new(alloc),
        }
    }

    /// Notes the path of a row with a name for which the row asked. If memory runs out, nothing changes.
    pub(crate) fn add(&mut self, name: &str, path: &str) -> Result<(), AllocError>
        ensures ok { OnOk result (AddsNote name.now path.now self.old self.new) }
        ensures err { OnErr result (NotesSame (is_noted self.old) (is_noted self.new)) }
    {
        match self.paths.get_mut(name) {
            Some(paths) => insert_copy(self.alloc, paths, path),
            None => self.add_first(name, path),
        }
    }

    /// Notes the path of a row with a name for which no other row asked. If memory runs out, nothing changes.
    fn add_first(&mut self, name: &str, path: &str) -> Result<(), AllocError>
        requires { get_by_text self.old.paths name.now ≡ None }
        ensures ok { OnOk result (AddsNote name.now path.now self.old self.new) }
        ensures err { OnErr result (NotesSame (is_noted self.old) (is_noted self.new)) }
    {
        let mut paths = BTreeSet::new(self.alloc);
        insert_copy(self.alloc, &mut paths, path)?;
        let name = String::from_str(self.alloc, name)?;
        match self.paths.insert(name, paths) {
            Ok(_before) => Ok(()),
            Err(failed) => Err(failed.into()),
        }
    }

    /// Forgets the path of a row that is noted with a name for which the row asked, if it is.
    pub(crate) fn remove(&mut self, name: &str, path: &str)
        ensures { NotesOneLess name.now path.now (is_noted self.old) (is_noted self.new) }
    {
        if self.leaves_none(name, path) {
            let _none = self.paths.remove(name);
        }
    }

    /// Forgets the path of a row that is noted with a name, and says whether no other path is noted with that
    /// name.
    fn leaves_none(&mut self, name: &str, path: &str) -> bool
        ensures less { NotesOneLess name.now path.now (is_noted self.old) (is_noted self.new) }
        ensures none { result ≡ true → (other : List ℕ) → is_noted self.new name.now other ≡ false }
    {
        match self.paths.get_mut(name) {
            Some(paths) => {
                let _was_there = paths.remove(path);
                paths.is_empty()
            }
            None => false,
        }
    }

    /// The paths of the rows that asked for the file of this name, if there are any.
    pub(crate) fn paths_of(&self, name: &str) -> Option<&BTreeSet<String>>
        ensures { AreNotedWith name.now self.now (option_copied result) }
    {
        self.paths.get(name)
    }

    /// Notes the path of a row with each of the names for which the row asked. If memory runs out, some of it
    /// is noted.
    pub(crate) fn add_all(&mut self, names: &[String], path: &str) -> Result<(), AllocError>
        ensures noted { OnOk result (NotesAll names.now path.now self.new) }
        ensures stays { KeepsNotes (is_noted self.old) (is_noted self.new) }
    {
        for name in names {
            self.add(name.as_str(), path)?;
        }
        Ok(())
    }

    /// Forgets the path of a row that is noted with the names for which the row asked.
    pub(crate) fn remove_all(&mut self, names: &[String], path: &str)
        ensures { KeepsOtherNotes path.now (is_noted self.old) (is_noted self.new) }
    {
        for name in names {
            self.remove(name.as_str(), path);
        }
    }
}

/// Adds a copy of a path to the paths of the rows that asked for a name, unless it is there. If memory runs out, nothing
/// changes.
fn insert_copy(alloc: Global, texts: &mut BTreeSet<String>, text: &str) -> Result<(), AllocError>
    ensures ok { OnOk result (NotesText text.now texts.old texts.new) }
    ensures err { OnErr result (texts.new ≡ texts.old) }
{
    if texts.contains(text) {
        return Ok(());
    }
    insert_text(texts, String::from_str(alloc, text)?)
}

/// Adds a text to a set of texts. If memory runs out, nothing changes.
pub fn insert_text(texts: &mut BTreeSet<String>, text: String) -> Result<(), AllocError>
    ensures ok { OnOk result (NotesText (string_bytes text) texts.old texts.new) }
    ensures err { OnErr result (texts.new ≡ texts.old) }
{
    match texts.insert(text) {
        Ok(_is_new) => Ok(()),
        Err(failed) => Err(failed.into()),
    }
}
