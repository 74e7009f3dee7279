//! Changes of a tenant's store in cases of stores: of its files and its settings, and what the store has of
//! these.
use case_lines::{Answer, Trouble, as_number};
use make_cases::{given_name, given_path, trees_answer, two_answer};
use mk_files::Files;
use mk_paths::{FilesFault, Name, Names, SearchPath};
use mk_text::Profile;
use std::alloc::Global;
use tenant_store::{PutFault, TenantFiles, TenantStore};

/// A change of a tenant's store, as a case of stores makes it.
#[derive(Drop)]
pub enum Change {
    /// `put TENANT NAME BYTES`
    Put(Name, Vec<u8>),
    /// `remove TENANT NAME`
    Remove(Name),
    /// `path TENANT TEXT`
    SetPath(SearchPath),
    /// `profile TENANT N`
    SetProfile(Profile),
}

impl Change {
    /// The change of a tenant's store that a call of a case makes.
    pub fn read(alloc: Global, call: &str, given: &[Vec<u8>]) -> Result<Change, Trouble> {
        match (call, given) {
            ("put", [name, bytes]) => Ok(Change::Put(given_name(alloc, name)?, bytes.clone()?)),
            ("remove", [name]) => Ok(Change::Remove(given_name(alloc, name)?)),
            ("path", [text]) => Ok(Change::SetPath(given_path(alloc, text)?)),
            ("profile", [number]) => Ok(Change::SetProfile(given_profile(number)?)),
            _ => Err(Trouble::NoCase),
        }
    }

    /// Makes the change in a tenant's store, and gives the answer of the case.
    pub fn make(&self, alloc: Global, store: &mut TenantStore) -> Result<&'static str, Trouble> {
        match self {
            Change::Put(name, bytes) => put(store, name, bytes.as_slice()),
            Change::Remove(name) => remove(store, name),
            Change::SetPath(path) => set_answer(&store.set_path(alloc, path)),
            Change::SetProfile(profile) => set_answer(&store.set_profile(*profile)),
        }
    }

    /// The file or the settings that the change of a case is about, as the store has them.
    pub fn subject(&self, alloc: Global, store: &mut TenantStore) -> Result<Answer, Trouble> {
        match self {
            Change::Put(name, _) | Change::Remove(name) => file_answer(alloc, store, name),
            Change::SetPath(_) | Change::SetProfile(_) => settings_answer(alloc, store),
        }
    }
}

/// Puts a file into a tenant's store in a case: `stored`, `Full` or `Store`.
pub fn put(store: &mut TenantStore, name: &Name, bytes: &[u8]) -> Result<&'static str, Trouble> {
    match store.put_file(name, bytes) {
        Ok(()) => Ok("stored"),
        Err(PutFault::Full) => Ok("Full"),
        Err(PutFault::Store(_)) => Ok("Store"),
        Err(PutFault::Memory(refused)) => Err(Trouble::Memory(refused)),
    }
}

/// Removes a file from a tenant's store in a case: `removed`, `absent` or `Store`.
fn remove(store: &mut TenantStore, name: &Name) -> Result<&'static str, Trouble> {
    match store.remove_file(name) {
        Ok(true) => Ok("removed"),
        Ok(false) => Ok("absent"),
        Err(FilesFault::Store(_)) => Ok("Store"),
        Err(FilesFault::Memory(refused)) => Err(Trouble::Memory(refused)),
    }
}

/// The profile that a case of stores gives by its number, 1 or 2.
pub fn given_profile(number: &[u8]) -> Result<Profile, Trouble> {
    match as_number(number)? {
        1 => Ok(Profile::One),
        2 => Ok(Profile::Two),
        _ => Err(Trouble::NoCase),
    }
}

/// What a case says of a setting that was set in a tenant's store: `set` or `Store`.
fn set_answer(told: &Result<(), FilesFault>) -> Result<&'static str, Trouble> {
    match told {
        Ok(()) => Ok("set"),
        Err(FilesFault::Store(_)) => Ok("Store"),
        Err(FilesFault::Memory(refused)) => Err(Trouble::Memory(*refused)),
    }
}

/// The call `store get TENANT NAME` of a case of stores: the bytes of a file, or `absent`. Every way of
/// asking gives the same.
pub fn file_answer(alloc: Global, store: &mut TenantStore, name: &Name) -> Result<Answer, Trouble> {
    let mut files = TenantFiles::new(alloc, store);
    let has = files.has(name)?;
    let read = files.read(name)?;
    drop(files);
    let held = store.get_file(alloc, name)?;
    Ok(match (held, read) {
        (Some(held), Some(read)) if has => two_answer(alloc, held.as_slice(), read.as_slice()),
        (None, None) if !has => Answer::of_word(alloc, "absent"),
        _ => Answer::of_word(alloc, "both"),
    })
}

/// The call `store settings TENANT` of a case of stores: the trees of the tenant's search path, and the
/// number of its profile.
pub fn settings_answer(alloc: Global, store: &mut TenantStore) -> Result<Answer, Trouble> {
    let settings = store.settings(alloc)?;
    let mut answer = trees_answer(alloc, &settings.path);
    answer.number(u64::from(settings.profile.number()));
    Ok(answer)
}
