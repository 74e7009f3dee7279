//! The rows of an index by their paths, as the keeper of an index asks for them.
ghost use Rattle.std.specs.Prelude.{ℕ, List, Option, IfOk, OnOk, OnErr};
ghost use Rattle.index_store.specs.Entries.{StoredValue, AreStored, AreStoredPaths};
ghost use Rattle.index_store.specs.Entries.{SameRows, PutsRow, MarksStale, MarksAll, DropsRows};
ghost use Rattle.index_store.specs.Entries.{SameProfiles, KeepsProfiles, WritesWith, DropsProfiles};
ghost use Rattle.mk_text.specs.declared.profile.Profile as kinds;

use mk_paths::FilesFault;
use mk_text::Profile;
use std::alloc::Global;

/// A row as it is stored.
#[derive(Debug, Drop)]
pub struct StoredRow {
    /// The path whose row it is.
    pub path: String,
    /// Whether it is marked stale.
    pub is_stale: bool,
    /// The bytes that were put.
    pub text: Vec<u8>,
}

/// The rows of an index, by their paths. Clauses see what is stored for each path, and the profile with which
/// its row was written; a row of the release before has none.
///
/// Each call fails with `Store` if the store refuses a statement, and with `Memory` if memory runs out.
/// After an error all rows are as they were.
pub trait PathRows {
    ghost entries: { Self → List ℕ → Option StoredValue };

    ghost profiles: { Self → List ℕ → Option kinds.Profile };

    /// All rows of the index, in any order.
    fn rows(&mut self, alloc: Global) -> Result<Vec<StoredRow>, FilesFault>
        ensures rows { IfOk result (AreStored (entries self.old)) }
        ensures same { SameRows (entries self.old) (entries self.new) }
        ensures profiles { SameProfiles (profiles self.old) (profiles self.new) };

    /// The paths of all rows of the index, in any order, without their bytes.
    fn paths(&mut self, alloc: Global) -> Result<Vec<String>, FilesFault>
        ensures paths { IfOk result (AreStoredPaths (entries self.old)) }
        ensures same { SameRows (entries self.old) (entries self.new) }
        ensures profiles { SameProfiles (profiles self.old) (profiles self.new) };

    /// Gives a path of the index this row, which isn't stale and is written with this profile, whether or not
    /// the path had one.
    fn put(&mut self, path: &str, profile: Profile, text: &[u8]) -> Result<(), FilesFault>
        ensures ok { OnOk result (PutsRow path.now text.now (entries self.old) (entries self.new)) }
        ensures profile { OnOk result (WritesWith profiles path.now profile self.old self.new) }
        ensures err { OnErr result (SameRows (entries self.old) (entries self.new)) }
        ensures err_profiles { OnErr result (KeepsProfiles profiles self.old self.new) };

    /// Marks the rows of these paths of the index stale. A path without a row is passed over.
    fn mark(&mut self, paths: &[String]) -> Result<(), FilesFault>
        ensures ok { OnOk result (MarksStale paths.now (entries self.old) (entries self.new)) }
        ensures err { OnErr result (SameRows (entries self.old) (entries self.new)) }
        ensures profiles { SameProfiles (profiles self.old) (profiles self.new) };

    /// Marks all rows of the index stale.
    fn mark_all(&mut self) -> Result<(), FilesFault>
        ensures ok { OnOk result (MarksAll (entries self.old) (entries self.new)) }
        ensures err { OnErr result (SameRows (entries self.old) (entries self.new)) }
        ensures profiles { SameProfiles (profiles self.old) (profiles self.new) };

    /// Takes the rows of these paths out of the index. A path without a row is passed over.
    fn take_out(&mut self, paths: &[String]) -> Result<(), FilesFault>
        ensures ok { OnOk result (DropsRows entries paths.now self.old self.new) }
        ensures profiles { OnOk result (DropsProfiles profiles paths.now self.old self.new) }
        ensures err { OnErr result (SameRows (entries self.old) (entries self.new)) }
        ensures err_profiles { OnErr result (KeepsProfiles profiles self.old self.new) };

    /// Limits the steps of each later statement on the rows of the index; with `None` they are no longer
    /// limited. If a statement would take more steps, it is refused as `Store`. The end of a transaction
    /// takes no steps. This changes nothing that is stored.
    fn limit_steps(&mut self, limit: Option<u64>)
        ensures same { SameRows (entries self.old) (entries self.new) }
        ensures profiles { SameProfiles (profiles self.old) (profiles self.new) };
}
