//! The store of one tenant's files and settings, as its callers see it.
ghost use Rattle.std.specs.Prelude.{◌≡◌, map, string_bytes, IfOk, None, OnOk, OnErr};
ghost use Rattle.std.specs.FinMap.{get, keys, contains_key};
ghost use Rattle.mk_paths.specs.SearchPath.{IsSearchPath, trees_of};
ghost use Rattle.mk_paths.specs.World.{files_in, opening_world, with_file, without_file};
ghost use Rattle.mk_paths.specs.World.{search_path_of, profile_of, with_search_path, with_profile};
ghost use Rattle.tenant_store.specs.Tables.{IsStoreAtRest, conn_world};
ghost use Rattle.sql_facts.specs.States.{state_of};
ghost use Rattle.tenant_store.specs.Faults.{IsFullWithFile};
ghost use Rattle.tenant_store.specs.Answers.{GivesContent, FitsWithFile, TellsWhetherThere};

use crate::contents::{keep_content, kept_content};
use crate::faults::PutFault;
use crate::file_lengths::{forget, list_of, note, put_back, without};
use crate::queries::{content_of, settings_row};
use crate::settings::{set_path, set_profile};
use crate::tables::open;
use crate::updates::{delete_file, write_file};
use lru::LruCache;
use mk_files::{Content, Usage};
use mk_paths::{FilesFault, Name, PathFault, SearchPath, Settings};
use mk_text::Profile;
use sql_facts::Sqlite;
use sqlite::{Connection, MemStore};
use std::alloc::{AllocError, Global};
use std::collections::BTreeMap;
use std::marker::Model;
use std::num::NonZeroUsize;

/// The files, the search path and the profile of one tenant, in a database in memory of its own. Clauses see the world
/// that they are: the files as a map of names to contents, and the settings.
#[derive(Drop)]
pub struct TenantStore {
    conn: Connection<MemStore>,
    alloc: Global,
    /// The lengths of the files in bytes, by their names.
    lengths: BTreeMap<String, usize>,
    /// How many files there are, and the sum of their lengths.
    usage: Usage,
    /// The contents of the files that were read last, by their names. None is kept over a write.
    contents: LruCache<String, Content>,
}

impl Model for TenantStore {
    ghost use Rattle.mk_paths.specs.World.{World, files_in, world_code};
    ghost use Rattle.sqlite.specs.Held.{state};
    ghost use Rattle.sqlite.specs.Steps.{over_memory};
    ghost use Rattle.tenant_store.specs.Contents.{AreContents};
    ghost use Rattle.tenant_store.specs.Lengths.{AreNoted};
    ghost use Rattle.tenant_store.specs.Tables.{world_in_state, IsStoreAtRest};

    ghost Value = { World };

    ghost coded = { world_code };

    ghost view = { λ store. world_in_state (state over_memory store.conn) };

    ghost invariant = { λ store. IsStoreAtRest (state over_memory store.conn)
        × AreNoted store.lengths store.usage (files_in (world_in_state (state over_memory store.conn)))
        × AreContents store.contents.entries (files_in (world_in_state (state over_memory store.conn))) };
}

impl TenantStore {
    /// The store of a tenant without a file, with the path `/ports:/mystuff` and the first profile. It keeps
    /// so many contents at most in memory beside the database: of the files that were read last since the
    /// last write.
    ///
    /// The error is `Store` if the database refuses a statement, and `Memory` if memory runs out.
    pub fn open_in_memory(alloc: Global, contents: NonZeroUsize) -> Result<TenantStore, FilesFault>
        ensures { IfOk result (λ store. store ≡ opening_world) }
    {
        let contents = LruCache::sparse(alloc, contents)?;
        match open(alloc) {
            Ok(conn) => Ok(TenantStore {
                conn,
                alloc,
                lengths: BTreeMap::new(alloc),
                usage: Usage { files: 0, bytes: 0 },
                contents,
            }),
            Err(error) => Err(FilesFault::of_statement::<Sqlite>(&error)),
        }
    }

    /// Gives the tenant's file of this name this content, whether or not the file was there.
    ///
    /// # Errors
    ///
    /// `Full` only if the tenant would then have more than 2,000 files or more than 8,388,608
    /// bytes of contents. A file that is replaced counts as the one that takes its place. A file
    /// that makes it more is never stored. `Store` comes if the database refuses a statement, and
    /// `Memory` if memory runs out. After an error nothing has changed.
    pub fn put_file(&mut self, name: &Name, content: &[u8]) -> Result<(), PutFault>
        ensures stored { OnOk result (self.new ≡ with_file self.old name.now content.now) }
        ensures fits { FitsWithFile result self.old name.now content.now }
        ensures full { IsFullWithFile result self.old name.now content.now }
        ensures err { OnErr result (self.new ≡ self.old) }
    {
        let text = name.as_str();
        let had = self.lengths.get(text).copied();
        let Some(usage) = self.usage.with(had, content.len()) else {
            return Err(PutFault::Full);
        };
        note(self.alloc, &mut self.lengths, text, content.len())?;
        match write_file(&mut self.conn, text, content, had.is_some()) {
            Ok(()) => {
                self.contents.clear();
                self.usage = usage;
                Ok(())
            }
            Err(error) => {
                put_back(&mut self.lengths, text, had);
                Err(PutFault::from(FilesFault::of_statement::<Sqlite>(&error)))
            }
        }
    }

    /// Removes the tenant's file of this name, and gives whether it was there.
    ///
    /// # Errors
    ///
    /// `Store` if the database refuses a statement, and `Memory` if memory runs out. After an error
    /// nothing has changed.
    pub fn remove_file(&mut self, name: &Name) -> Result<bool, FilesFault>
        ensures was_there { TellsWhetherThere result self.old name.now }
        ensures removed { OnOk result (self.new ≡ without_file self.old name.now) }
        ensures err { OnErr result (self.new ≡ self.old) }
    {
        let text = name.as_str();
        let Some(length) = self.lengths.get(text).copied() else {
            return Ok(false);
        };
        self.contents.clear();
        match delete_file(&mut self.conn, text) {
            Ok(()) => {
                forget(&mut self.lengths, text);
                self.usage = without(self.usage, length);
                Ok(true)
            }
            Err(error) => Err(FilesFault::of_statement::<Sqlite>(&error)),
        }
    }

    /// The content of the tenant's file of this name; `None` if it isn't there. The database isn't asked if
    /// the file isn't there, or if its content is kept.
    ///
    /// # Errors
    ///
    /// `Store` if the database refuses a statement, and `Memory` if memory runs out.
    pub fn get_file(&mut self, alloc: Global, name: &Name) -> Result<Option<Content>, FilesFault>
        ensures content { IfOk result (λ content. content ≡ get (files_in self.old) name.now) }
        ensures same { self.new ≡ self.old }
    {
        let name = name.as_str();
        if !self.lengths.contains_key(name) {
            return Ok(None);
        }
        if let Some(content) = kept_content(&mut self.contents, name)? {
            return Ok(Some(content));
        }
        let found = stored_content(&mut self.conn, alloc, name)?;
        if let Some(content) = &found {
            keep_content(alloc, &mut self.contents, name, content);
        }
        Ok(found)
    }

    /// Whether the tenant has a file of this name. The database isn't asked.
    pub fn has_file(&self, name: &Name) -> bool
        ensures { result ≡ contains_key (files_in self.now) name.now }
    {
        self.lengths.contains_key(name.as_str())
    }

    /// The names of all files of the tenant, in the order of their bytes. The database isn't asked, so it
    /// fails only if memory runs out.
    pub fn names(&self, alloc: Global) -> Result<Vec<String>, AllocError>
        ensures { IfOk result (λ names. map string_bytes names.items ≡ keys (files_in self.now)) }
    {
        list_of(alloc, &self.lengths)
    }

    /// Sets the tenant's search path in its store.
    ///
    /// # Errors
    ///
    /// `Store` if the database refuses a statement, and `Memory` if memory runs out. After an error
    /// nothing has changed.
    pub fn set_path(&mut self, alloc: Global, path: &SearchPath) -> Result<(), FilesFault>
        ensures path { OnOk result (self.new ≡ with_search_path self.old path.now) }
        ensures err { OnErr result (self.new ≡ self.old) }
    {
        match set_path(&mut self.conn, alloc, path) {
            Ok(()) => Ok(()),
            Err(error) => Err(FilesFault::of_statement::<Sqlite>(&error)),
        }
    }

    /// Sets the tenant's profile in its store.
    ///
    /// # Errors
    ///
    /// `Store` if the database refuses a statement, and `Memory` if memory runs out. After an error
    /// nothing has changed.
    pub fn set_profile(&mut self, profile: Profile) -> Result<(), FilesFault>
        ensures profile { OnOk result (self.new ≡ with_profile self.old profile) }
        ensures err { OnErr result (self.new ≡ self.old) }
    {
        match set_profile(&mut self.conn, profile) {
            Ok(()) => Ok(()),
            Err(error) => Err(FilesFault::of_statement::<Sqlite>(&error)),
        }
    }

    /// The settings of the tenant: the search path, which is `/ports:/mystuff` until one is set, and the
    /// profile, which is the first until one is set.
    ///
    /// # Errors
    ///
    /// `Store` if the database refuses a statement, and `Memory` if memory runs out.
    pub fn settings(&mut self, alloc: Global) -> Result<Settings, FilesFault>
        ensures path { IfOk result (λ found. found.path ≡ search_path_of self.old) }
        ensures profile { IfOk result (λ settings. settings.profile ≡ profile_of self.old) }
        ensures same { self.new ≡ self.old }
    {
        settings_of(&mut self.conn, alloc)
    }

    /// Limits the steps of each later statement on the tenant's files and settings; with `None` they are no
    /// longer limited. If a statement would take more steps, it is refused as `Store`. The end of a
    /// transaction takes no steps. This changes nothing that is held.
    pub fn limit_steps(&mut self, limit: Option<u64>)
        ensures { self.new ≡ self.old }
    {
        self.conn.set_step_limit(limit);
    }
}

/// The search path of a text that the tenant's store holds.
fn path_from(alloc: Global, text: &str) -> Result<SearchPath, AllocError>
    requires { IsSearchPath (trees_of text.now) }
    ensures { IfOk result (λ path. path ≡ trees_of text.now) }
{
    match SearchPath::read(alloc, text) {
        Ok(path) => Ok(path),
        Err(PathFault::BadPath) => unreachable!(), // the text is one
        Err(PathFault::Memory(refused)) => Err(refused.into()),
    }
}

/// The content of a tenant's file as the database has it, if it is there, to be shared.
fn stored_content(
    conn: &mut Connection<MemStore>,
    alloc: Global,
    name: &str,
) -> Result<Option<Content>, FilesFault>
    requires { IsStoreAtRest (state_of conn.old) }
    ensures content { GivesContent result (conn_world conn.old) name.now }
    ensures kept { IsStoreAtRest (state_of conn.new) }
    ensures same { conn_world conn.new ≡ conn_world conn.old }
{
    match content_of(conn, name) {
        Ok(Some(bytes)) => Ok(Some(Content::new(alloc, bytes)?)),
        Ok(None) => Ok(None),
        Err(error) => Err(FilesFault::of_statement::<Sqlite>(&error)),
    }
}

/// The settings of a tenant as its database has them: the search path and the profile.
fn settings_of(conn: &mut Connection<MemStore>, alloc: Global) -> Result<Settings, FilesFault>
    requires { IsStoreAtRest (state_of conn.old) }
    ensures path { IfOk result (λ found. found.path ≡ search_path_of (conn_world conn.old)) }
    ensures profile { IfOk result (λ found. found.profile ≡ profile_of (conn_world conn.old)) }
    ensures kept { IsStoreAtRest (state_of conn.new) }
    ensures same { conn_world conn.new ≡ conn_world conn.old }
{
    match settings_row(conn) {
        Ok(settings) => Ok(Settings {
            path: path_from(alloc, settings.path.as_str())?,
            profile: settings.profile,
        }),
        Err(error) => Err(FilesFault::of_statement::<Sqlite>(&error)),
    }
}
