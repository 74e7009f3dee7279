//! The elements of a package path's text, the directory and the choices after it: how the text is cut into
//! them, and what they may be.
ghost use Rattle.std.specs.Prelude.{◌≡◌, ◌∷◌, IfOk, filter, length};
ghost use Rattle.std.specs.List.{list_all, list_any};
ghost use Rattle.pkg_path.specs.Paths.{elements_of, is_subpackage, is_flavor, flavors_of, may_occur, is_directory_part};
ghost use Rattle.pkg_path.specs.Paths.{is_directory, is_bare_dash, is_well_cut};
ghost use Rattle.pkg_path.specs.Seen.{flavors_seen, FindsFlavors, GivesSubpackage};
ghost use Rattle.text_parts.specs.Cuts.{now_all};

use crate::flavors::Flavors;
use std::alloc::{AllocError, Global};
use text_parts::{put_in_order, split_at};

/// The directory that the text of a package path begins with, and the choices after it. Most texts have no
/// choice, and then nothing is allocated.
pub(crate) fn cut_into_elements(alloc: Global, text: &str) -> Result<(&str, Vec<&str>), AllocError>
    ensures { IfOk result (λ found. found.0.now ∷ now_all found.1.items ≡ elements_of text.now) }
{
    match text.split_once(',') {
        Some((directory, choices)) => Ok((directory, split_at(alloc, choices, ',')?)),
        None => Ok((text, Vec::new(alloc))),
    }
}

/// Whether an element of a path's text names a subpackage: it begins with a dash.
fn is_subpackage(choice: &str) -> bool
    ensures { result ≡ is_subpackage choice.now }
{
    choice.starts_with('-')
}

/// Whether an element of a path's text names a flavor.
fn is_flavor(choice: &str) -> bool
    ensures { result ≡ is_flavor choice.now }
{
    !choice.is_empty() && !is_subpackage(choice)
}

/// Whether each choice of a package path names a subpackage.
fn all_subpackages(choices: &[&str]) -> bool
    ensures { result ≡ list_all (λ choice. is_subpackage choice.now) choices.now }
{
    choices.iter().all(|choice| is_subpackage(choice))
}

/// How many choices of a package path name a subpackage.
pub(crate) fn count_subpackages(choices: &[&str]) -> usize
    ensures { result ≡ length (filter (λ choice. is_subpackage choice.now) choices.now) }
{
    choices
        .iter()
        .filter(|choice| is_subpackage(choice))
        .count()
}

/// Whether the elements of a package path are well written: its bytes may be in a path, its directory is one,
/// and no choice is a bare dash.
pub(crate) fn is_well_written(text: &str, directory: &str, choices: &[&str]) -> bool
    ensures { result ≡ is_well_cut text.now directory.now (now_all choices.now) }
{
    has_path_bytes(text) && is_directory(directory) && !has_bare_dash(choices)
}

/// Whether each byte of a text may be in a package path.
fn has_path_bytes(text: &str) -> bool
    ensures { result ≡ list_all may_occur text.now }
{
    text.bytes().all(|byte| is_path_byte(byte))
}

/// Whether a byte may be in a package path.
fn is_path_byte(byte: u8) -> bool
    ensures { result ≡ may_occur byte }
{
    33 <= byte
        && byte <= 126
        && byte != b':'
        && byte != b'|'
        && byte != b'<'
        && byte != b'>'
        && byte != b'='
        && byte != b'*'
}

/// Whether a text may be the directory of a package path, by the parts between its slashes.
fn is_directory(text: &str) -> bool
    ensures { result ≡ is_directory text.now }
{
    text.split('/').all(|part| is_part(part))
}

/// Whether a part between slashes may be in the directory of a package path.
fn is_part(part: &str) -> bool
    ensures { result ≡ is_directory_part part.now }
{
    part != "" && part != "." && part != ".."
}

/// Whether a choice of a package path is a dash without a name.
fn has_bare_dash(choices: &[&str]) -> bool
    ensures { result ≡ list_any (λ choice. is_bare_dash choice.now) choices.now }
{
    choices.iter().any(|choice| *choice == "-")
}

/// The flavors that these elements of a path's text choose.
pub(crate) fn flavors_of(alloc: Global, choices: &[&str]) -> Result<Flavors, AllocError>
    ensures { IfOk result (λ flavors. flavors_seen flavors ≡ flavors_of (now_all choices.now)) }
{
    if all_subpackages(choices) {
        return Ok(Flavors::Default);
    }
    let mut flavors = named_flavors(alloc, choices)?;
    put_in_order(&mut flavors);
    Ok(Flavors::Explicit(flavors))
}

/// The flavors that these elements of a path's text name, as they are written.
fn named_flavors(alloc: Global, choices: &[&str]) -> Result<Vec<String>, AllocError>
    ensures { FindsFlavors result choices.now }
{
    let mut flavors = Vec::new(alloc);
    for choice in choices {
        if is_flavor(choice) {
            flavors.push(String::from_str(alloc, choice)?)?;
        }
    }
    Ok(flavors)
}

/// The first subpackage that these elements of a path's text name; `None` if they name none.
pub(crate) fn subpackage_of(alloc: Global, choices: &[&str]) -> Result<Option<String>, AllocError>
    ensures { GivesSubpackage result choices.now }
{
    for choice in choices {
        if is_subpackage(choice) {
            return Ok(Some(String::from_str(alloc, choice)?));
        }
    }
    Ok(None)
}
