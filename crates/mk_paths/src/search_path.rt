//! The search path: the ports trees that are searched for a port's directory.
ghost use Rattle.std.specs.Prelude.{◌≡◌, IfOk, IsErrOf, map};
ghost use Rattle.refusals.specs.Refused.{refused};
ghost use Rattle.std.specs.List.{list_all};
ghost use Rattle.std.specs.String.{string_bytes};
ghost use Rattle.mk_paths.specs.SearchPath.{search_path, is_search_path, may_be_in_part, is_part, is_tree, standard_trees, IsSearchPath};
ghost use Rattle.text_parts.specs.Cuts.{now_all};
ghost use Rattle.mk_paths.specs.declared.search_path.PathFault.TheVariants.{Memory};

use crate::file_name::is_plain_byte;
use mk_text::Profile;
use refusals::OutOfMemory;
use std::alloc::{AllocError, Global};
use std::marker::Model;
use text_parts::{clones_of, copies_of, split_at};
use thiserror::Error;

/// The most trees of a search path.
const MOST_TREES: usize = 8;

/// Why a text is no search path.
#[derive(Clone, Copy, Debug, PartialEq, Eq, Error)]
pub enum PathFault {
    /// There is no tree, there are more than eight, or one isn't a slash and one part.
    #[error("not a search path of one to eight trees")]
    BadPath,
    /// There was no memory for the trees.
    #[error("out of memory")]
    Memory(OutOfMemory),
}

impl From<AllocError> for PathFault {
    ghost from_gives = { λ _ fault. fault ≡ Memory refused };

    /// If an allocation is refused, a search path isn't read, and the fault is `Memory`.
    fn from(error: AllocError) -> PathFault {
        PathFault::Memory(OutOfMemory::from(error))
    }
}

/// The trees that are searched for a port's directory, the first one first (PORTSDIR_PATH of
/// bsd.port.mk(5)): one to eight, each `/name`. Clauses see the list of the trees' bytes.
#[derive(Debug, Drop)]
pub struct SearchPath {
    trees: Vec<String>,
}

impl Model for SearchPath {
    ghost use Rattle.std.specs.Prelude.{List, ℕ, map};
    ghost use Rattle.std.specs.String.{string_bytes};
    ghost use Rattle.mk_paths.specs.SearchPath.{IsSearchPath};

    ghost Value = { List (List ℕ) };

    ghost view = { λ path. map string_bytes path.trees.items };

    ghost invariant = { λ path. IsSearchPath (map string_bytes path.trees.items) };
}

impl SearchPath {
    /// The search path that a text gives: trees with colons between them. There are one to eight, each a
    /// slash and one part. The part is printable ASCII without blanks, slashes or colons, and isn't empty,
    /// `.` or `..`. A tree may be named again.
    ///
    /// Any other text is `BadPath`. It is `Memory` if memory runs out.
    pub fn read(alloc: Global, text: &str) -> Result<SearchPath, PathFault>
        ensures ok { IfOk result (λ path. search_path text.now ≡ Some path) }
        ensures bad_path { IsErrOf result PathFault.BadPath → search_path text.now ≡ None }
    {
        let trees = split_at(alloc, text, ':')?;
        if !is_path(&trees) {
            return Err(PathFault::BadPath);
        }
        Ok(SearchPath {
            trees: copies_of(alloc, &trees)?,
        })
    }

    /// The search path `/ports:/mystuff`, with which a tenant begins. It fails only if memory runs out.
    pub fn standard(alloc: Global) -> Result<SearchPath, AllocError>
        ensures { IfOk result (λ path. path ≡ standard_trees) }
    {
        Ok(SearchPath {
            trees: copies_of(alloc, &["/ports", "/mystuff"])?,
        })
    }

    /// A copy of a search path. It fails only if memory runs out.
    pub fn copy(&self, alloc: Global) -> Result<SearchPath, AllocError>
        ensures { IfOk result (λ path. path ≡ self.now) }
    {
        Ok(SearchPath {
            trees: clones_of(alloc, self.trees())?,
        })
    }

    /// The trees of a search path, the first one searched first.
    pub fn trees(&self) -> &[String]
        ensures trees { map string_bytes result.now ≡ self.now }
        ensures is_path { IsSearchPath self.now }
    {
        self.trees.as_slice()
    }
}

/// What a world of files is read with: the search path of its ports, and the language of its makefiles.
#[derive(Debug, Drop)]
pub struct Settings {
    /// The trees that are searched for a port's directory.
    pub path: SearchPath,
    /// The make language of the makefiles.
    pub profile: Profile,
}

/// Whether these texts are the trees of a search path: one to eight.
fn is_path(texts: &[&str]) -> bool
    ensures { result ≡ is_search_path (now_all texts.now) }
{
    !texts.is_empty() && texts.len() <= MOST_TREES && are_trees(texts)
}

/// Whether each of these texts is a tree of a search path.
fn are_trees(texts: &[&str]) -> bool
    ensures { result ≡ list_all (λ text. is_tree text.now) texts.now }
{
    texts.iter().all(|text| is_tree_text(text))
}

/// Whether a text is a tree of a search path: a slash and one part.
fn is_tree_text(text: &str) -> bool
    ensures { result ≡ is_tree text.now }
{
    match text.strip_prefix('/') {
        Some(part) => is_part_text(part),
        None => false,
    }
}

/// Whether a text is the part of a search path's tree after its slash.
fn is_part_text(part: &str) -> bool
    ensures { result ≡ is_part part.now }
{
    match part {
        "" | "." | ".." => false,
        _ => has_part_bytes(part),
    }
}

/// Whether each byte of a text may be in the name of a search path's tree.
fn has_part_bytes(text: &str) -> bool
    ensures { result ≡ list_all may_be_in_part text.now }
{
    text.bytes().all(|byte| is_part_byte(byte))
}

/// Whether a byte may be in the name of a search path's tree: no blank, slash or colon.
fn is_part_byte(byte: u8) -> bool
    ensures { result ≡ may_be_in_part byte }
{
    is_plain_byte(byte) && byte != b'/' && byte != b':'
}
