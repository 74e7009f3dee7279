//! Names of files as a world of files knows them, resolved and with their directories.
ghost use Rattle.std.specs.Prelude.{◌≡◌, IfOk, [], if◌then◌else◌};
ghost use Rattle.refusals.specs.Refused.{refused};
ghost use Rattle.std.specs.List.{list_all};
ghost use Rattle.std.specs.String.{string_bytes};
ghost use Rattle.mk_paths.specs.FileName.{resolved, IsResolved, name_under, directory_of, is_plain, with_slashes};
ghost use Rattle.mk_paths.specs.FileName.{FailsLike, FailsUnder};
ghost use Rattle.text_parts.specs.Cuts.{now_all};
ghost use Rattle.mk_paths.specs.declared.file_name.NameFault.TheVariants.{Memory};
ghost use Rattle.mk_paths.specs.Parts.{KeepsParts, TakesPart};

use refusals::OutOfMemory;
use std::alloc::{AllocError, Global};
use std::marker::Model;
use text_parts::split_at;
use thiserror::Error;

/// The most bytes of a resolved name.
const LONGEST_NAME: usize = 255;

/// Why a text names no file.
#[derive(Clone, Copy, Debug, PartialEq, Eq, Error)]
pub enum NameFault {
    /// A byte isn't printable ASCII or is a blank, the first byte isn't a slash, or the resolved name
    /// has fewer than two parts or more than 255 bytes.
    #[error("not the name of a file")]
    BadName,
    /// A `..` has no part before it.
    #[error("a `..` has no part before it")]
    Above,
    /// There was no memory for the resolved name.
    #[error("out of memory")]
    Memory(OutOfMemory),
}

impl From<AllocError> for NameFault {
    ghost from_gives = { λ _ fault. fault ≡ Memory refused };

    /// If an allocation is refused, a file name isn't read, and the fault is `Memory`.
    fn from(error: AllocError) -> NameFault {
        NameFault::Memory(OutOfMemory::from(error))
    }
}

/// A resolved file name, as in `/tree/a/b`. It has at least two parts of printable ASCII without blanks,
/// and no part is empty, `.` or `..`. It has at most 255 bytes. Clauses see its bytes.
#[derive(Debug, Drop)]
pub struct Name {
    text: String,
}

impl Model for Name {
    ghost use Rattle.std.specs.Prelude.{List, ℕ};
    ghost use Rattle.std.specs.String.{string_bytes};
    ghost use Rattle.mk_paths.specs.FileName.{IsResolved};

    ghost Value = { List ℕ };

    ghost view = { λ name. string_bytes name.text };

    ghost invariant = { λ name. IsResolved (string_bytes name.text) };
}

impl Name {
    /// The file name that an absolute name means, resolved. Empty and `.` parts are dropped, and `..` removes
    /// the part before it.
    ///
    /// The faults are looked for in this order. It is `BadName` if a byte isn't printable ASCII or is a
    /// blank, or if the first byte isn't a slash. It is `Above` if a `..` has no part before it. It is
    /// `BadName` if the resolved name has fewer than two parts or more than 255 bytes. Whenever memory
    /// runs out, it is `Memory`.
    pub fn read(alloc: Global, text: &str) -> Result<Name, NameFault>
        ensures ok { IfOk result (λ name. resolved text.now ≡ Ok name) }
        ensures bad_name { FailsLike result NameFault.BadName (resolved text.now) }
        ensures above { FailsLike result NameFault.Above (resolved text.now) }
    {
        if !text.starts_with('/') || !is_plain_text(text) {
            return Err(NameFault::BadName);
        }
        let parts = split_at(alloc, text, '/')?;
        let Some(kept) = kept_of(alloc, &parts)? else {
            return Err(NameFault::Above);
        };
        let text = join(alloc, &kept)?;
        if kept.len() < 2 || text.len() > LONGEST_NAME {
            return Err(NameFault::BadName);
        }
        Ok(Name { text })
    }

    /// The file name that a name in a makefile means, under a directory. An absolute name is taken as `read`
    /// takes it. Any other name is put after the directory, with a slash between.
    ///
    /// Its faults are those of `read` for that text.
    pub fn under(alloc: Global, directory: &str, file: &str) -> Result<Name, NameFault>
        ensures ok { IfOk result (λ name. resolved (name_under directory.now file.now) ≡ Ok name) }
        ensures bad_name { FailsUnder result NameFault.BadName directory.now file.now }
        ensures above { FailsUnder result NameFault.Above directory.now file.now }
    {
        if file.starts_with('/') {
            return Name::read(alloc, file);
        }
        let mut text = String::from_str(alloc, directory)?;
        text.push_str("/")?;
        text.push_str(file)?;
        Name::read(alloc, text.as_str())
    }

    /// The resolved file name as a text, as in `/tree/a/b`.
    pub fn as_str(&self) -> &str
        ensures text { result.now ≡ self.now }
        ensures resolved { IsResolved self.now }
    {
        self.text.as_str()
    }

    /// A copy of a file name. It fails only if memory runs out.
    pub fn copy(&self, alloc: Global) -> Result<Name, AllocError>
        ensures { IfOk result (λ name. name ≡ self.now) }
    {
        Ok(Name {
            text: String::from_str(alloc, self.as_str())?,
        })
    }

    /// The directory of a file name: what is before its last slash.
    pub fn directory(&self) -> &str
        ensures { result.now ≡ directory_of self.now }
    {
        let text = self.as_str();
        match text.rfind('/') {
            Some(end) => &text[..end],
            None => "",
        }
    }

    /// The resolved file name as a text of its own.
    pub fn into_text(self) -> String
        ensures text { string_bytes result ≡ self }
        ensures resolved { IsResolved self }
    {
        let Name { text } = self;
        text
    }
}

/// Whether a byte may be in a file name: it is printable ASCII and no blank.
pub(crate) fn is_plain_byte(byte: u8) -> bool
    ensures { result ≡ is_plain byte }
{
    33 <= byte && byte <= 126
}

/// Whether each byte of a text may be in a file name: it is printable ASCII and no blank.
fn is_plain_text(text: &str) -> bool
    ensures { result ≡ list_all is_plain text.now }
{
    text.bytes().all(|byte| is_plain_byte(byte))
}

/// The parts that are left of a file name when empty and `.` parts are dropped and each `..` removes the part
/// before it. It is `None` if a `..` has no part before it.
fn kept_of<'a>(alloc: Global, parts: &[&'a str]) -> Result<Option<Vec<&'a str>>, AllocError>
    ensures { KeepsParts result parts.now }
{
    let mut kept = Vec::new(alloc);
    for part in parts {
        let placed = take_part(&mut kept, part)?;
        if !placed {
            return Ok(None);
        }
    }
    Ok(Some(kept))
}

/// Takes the next part of a file name after those kept so far. If the part is a `..` with no part before it,
/// it gives false, and otherwise true.
fn take_part<'a>(kept: &mut Vec<&'a str>, part: &'a str) -> Result<bool, AllocError>
    ensures { TakesPart result kept.old.items kept.new.items part.now }
{
    match part {
        "" | "." => Ok(true),
        ".." => Ok(kept.pop().is_some()),
        _ => {
            kept.push(part)?;
            Ok(true)
        }
    }
}

/// The text of a resolved file name: its parts one after another, each after a slash.
fn join(alloc: Global, parts: &[&str]) -> Result<String, AllocError>
    ensures { IfOk result (λ text. string_bytes text ≡ with_slashes (now_all parts.now)) }
{
    let mut text = String::new(alloc);
    for part in parts {
        text.push_str("/")?;
        text.push_str(part)?;
    }
    Ok(text)
}
