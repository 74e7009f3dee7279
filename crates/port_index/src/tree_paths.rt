//! The paths of a ports tree: directories with a makefile, and what a list of directories names.
ghost use Rattle.std.specs.Prelude.{◌≡◌, ◌==◌, ◌++◌, true, map, string_bytes, IfOk, OnOk, option_map};
ghost use Rattle.std.specs.List.{filter_map, list_any};
ghost use Rattle.std.specs.Option.{option_copied};
ghost use Rattle.std.specs.Result.{result_err};
ghost use Rattle.text_parts.specs.Ordered.{by_bytes};
ghost use Rattle.port_index.specs.FilledRows.{is_one_of};
ghost use Rattle.port_index.specs.Finders.{TellsPathAmong};
ghost use Rattle.port_index.specs.FromRows.{AreListed, AreNamedBy, AddsNamed, AddsWords};
ghost use Rattle.port_index.specs.KeptFiles.{KeepsFiles};
ghost use Rattle.port_index.specs.TreePaths as dirs;
ghost use Rattle.port_index.specs.Seen.{AddsPath, GivesPath, GivesTexts, names_seen, row_says};

use crate::memory_rows::MemoryRows;
use crate::path_outcomes::Row;
use mk_files::Listing;
use mk_paths::FilesFault;
use pkg_path::{PkgPath, is_bare};
use port_deps::has_comma;
use std::alloc::{AllocError, Global};
use std::cmp::Ordering;
use text_parts::{clones_of, put_in_order};

/// The directories of a ports tree in which a makefile may be, by the names of the files: in the order of
/// their bytes, each once. It fails if the files fail, or if memory runs out.
pub fn directories<F: Listing>(alloc: Global, files: &mut F) -> Result<Vec<String>, FilesFault>
    ensures ok { IfOk result (GivesTexts (dirs.directories (F.view files.old).files)) }
    ensures keeps { KeepsFiles (result_err result) (F.view files.old) (F.view files.new) }
{
    let names = files.names(alloc)?;
    let mut found = directories_of(alloc, &names)?;
    put_in_order(&mut found);
    Ok(found)
}

/// The directories of a ports tree of which these names are makefiles.
fn directories_of(alloc: Global, names: &[String]) -> Result<Vec<String>, AllocError>
    ensures { IfOk result (GivesTexts (filter_map dirs.listable_directory (names_seen names.now))) }
{
    let mut found = Vec::new(alloc);
    for name in names {
        add_found(&mut found, directory_of(alloc, name)?)?;
    }
    Ok(found)
}

/// Adds a path of a ports tree to others, if there is one.
pub(crate) fn add_found(paths: &mut Vec<String>, path: Option<String>) -> Result<(), AllocError>
    ensures { OnOk result (AddsPath (option_map string_bytes path) paths.old paths.new) }
{
    if let Some(path) = path {
        paths.push(path)?;
    }
    Ok(())
}

/// The directory of a ports tree of which a name is the makefile, if a path can name that.
#[tactic(auto, unfolding(crate::specs::TreePaths::listable_directory))]
pub(crate) fn directory_of(alloc: Global, name: &str) -> Result<Option<String>, AllocError>
    ensures { IfOk result (GivesPath (dirs.listable_directory name.now)) }
{
    let Some(directory) = makefile_directory(name) else {
        return Ok(None);
    };
    if directory == "." || is_bare(directory) {
        return Ok(Some(String::from_str(alloc, directory)?));
    }
    Ok(None)
}

/// The directory, below its tree, of which a name is the makefile: that of `/TREE/DIRECTORY/Makefile`, and `.`
/// for `/TREE/Makefile`.
fn makefile_directory(name: &str) -> Option<&str>
    ensures { option_copied result ≡ dirs.makefile_directory name.now }
{
    let place = after_slash(name.strip_suffix("/Makefile")?)?;
    match after_slash(place) {
        Some(directory) => Some(directory),
        None => Some("."),
    }
}

/// The path in its ports tree of a file with this name: what follows the first slash.
fn after_slash(text: &str) -> Option<&str>
    ensures { option_copied result ≡ dirs.after_slash text.now }
{
    let (_before, after) = text.split_once('/')?;
    Some(after)
}

/// The listed paths of a ports tree: these directories, and the paths that the lists among them name, by
/// their rows. They are in the order of their bytes, each once. It fails only if memory runs out.
pub fn listed(
    alloc: Global,
    directories: &[String],
    rows: &MemoryRows,
) -> Result<Vec<String>, AllocError>
    ensures { IfOk result (AreListed directories.now rows.now) }
{
    let mut paths = named_by_all(alloc, directories, rows)?;
    append(&mut paths, clones_of(alloc, directories)?)?;
    put_in_order(&mut paths);
    Ok(paths)
}

/// Whether a path of a ports tree is found among these. They are searched in the order of their bytes: a path
/// that is found is one of them, and one of them may be missed if they aren't in that order, each once.
pub fn is_found_in(paths: &[String], path: &str) -> bool
    ensures found { result ≡ true → is_one_of path.now (map string_bytes paths.now) ≡ true }
    ensures all { TellsPathAmong path.now paths.now result }
{
    let place = paths.binary_search_by(
        |one: &String| -> Ordering
            ensures { result ≡ by_bytes (string_bytes one.now) path.entry.now }
        { one.as_str().cmp(path) },
    );
    match place {
        Ok(place) => paths[place].as_str() == path,
        Err(_place) => false,
    }
}

/// Adds more paths after these.
fn append(texts: &mut Vec<String>, more: Vec<String>) -> Result<(), AllocError>
    ensures { OnOk result (texts.new.items ≡ texts.old.items ++ more.items) }
{
    for text in more {
        texts.push(text)?;
    }
    Ok(())
}

/// The paths that the lists in these directories of a ports tree name, by the rows.
fn named_by_all(
    alloc: Global,
    directories: &[String],
    rows: &MemoryRows,
) -> Result<Vec<String>, AllocError>
    ensures { IfOk result (AreNamedBy directories.now rows.now) }
{
    let mut found = Vec::new(alloc);
    let mut finder = rows.finder();
    for directory in directories {
        add_named(alloc, &mut found, directory, finder.get(directory))?;
    }
    Ok(found)
}

/// Adds the paths that the list in a directory with this row names.
fn add_named(
    alloc: Global,
    found: &mut Vec<String>,
    directory: &str,
    row: Option<&Row>,
) -> Result<(), AllocError>
    ensures { OnOk result (AddsNamed directory.now (row_says row.entry) found.old found.new) }
{
    match row {
        Some(Row::Lists(words)) => add_words(alloc, found, directory, words),
        _ => Ok(()),
    }
}

/// Adds the paths that the words of a directory's list (SUBDIR) name.
fn add_words(
    alloc: Global,
    found: &mut Vec<String>,
    directory: &str,
    words: &[String],
) -> Result<(), AllocError>
    ensures { OnOk result (AddsWords directory.now words.now found.old found.new) }
{
    for word in words {
        add_found(found, path_of_word(alloc, directory, word)?)?;
    }
    Ok(())
}

/// The path of the tree that a word of a directory's list names, if the word chooses flavors.
fn path_of_word(alloc: Global, directory: &str, word: &str) -> Result<Option<String>, AllocError>
    ensures { IfOk result (GivesPath (dirs.path_of_word directory.now word.now)) }
{
    if !has_comma(word) {
        return Ok(None);
    }
    let text = path_below(alloc, directory, word)?;
    match PkgPath::read_if_one(alloc, text.as_str())? {
        Some(path) => Ok(Some(path.port_path(alloc)?)),
        None => Ok(None),
    }
}

/// The text of the path that a list's word means, below the list's directory. In the trees' own directory it
/// is the word alone.
fn path_below(alloc: Global, directory: &str, word: &str) -> Result<String, AllocError>
    ensures { IfOk result (λ text. string_bytes text ≡ dirs.path_below directory.now word.now) }
{
    if directory == "." {
        String::from_str(alloc, word)
    } else {
        format!(in alloc; "{directory}/{word}")
    }
}
