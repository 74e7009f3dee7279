//! Names of packages: cutting them into stem, version and flavors, and printing them.
ghost use Rattle.std.specs.Prelude.{◌≡◌, not, IfOk, IsErrOf, Some, None, map};
ghost use Rattle.refusals.specs.Refused.{refused};
ghost use Rattle.std.specs.List.{list_all};
ghost use Rattle.std.specs.String.{string_bytes};
ghost use Rattle.pkg_name.specs.Name.{split_name, name_text, is_stem_or_flavor, is_forbidden};
ghost use Rattle.pkg_name.specs.Name.{CutsAtVersion, CutsFlavors};
ghost use Rattle.pkg_name.specs.declared.name.NameFault.TheVariants.{Memory};

use crate::version::{Version, VersionFault, begins_with_digit};
use refusals::OutOfMemory;
use std::alloc::{AllocError, Global};
use std::fmt;
use std::marker::Model;
use text_parts::{copies_of, cut_where, split_at};
use thiserror::Error;

/// Why a text is no name of a package.
#[derive(Clone, Copy, Debug, PartialEq, Eq, Error)]
pub enum NameFault {
    /// There is no dash that a digit follows, or no version between the first such dash and the next
    /// dash. Or the stem or a flavor is empty, or has a blank or one of `/ , | < > = * !`.
    #[error("not the name of a package")]
    NoName,
    /// There was no memory for the name.
    #[error("out of memory")]
    Memory(OutOfMemory),
}

impl From<AllocError> for NameFault {
    ghost from_gives = { λ _ fault. fault ≡ Memory refused };

    /// The fault that there was no memory for the name of a package.
    fn from(error: AllocError) -> NameFault {
        NameFault::Memory(OutOfMemory::from(error))
    }
}

/// The name of a package, `stem-version-flavors`, such as `py3-foo-1.0p2-gtk` (packages-specs(7)).
/// Clauses see the bytes of its parts.
#[derive(Debug, Drop)]
pub struct PkgName {
    stem: String,
    version: Version,
    flavors: Vec<String>,
}

impl Model for PkgName {
    ghost use Rattle.std.specs.Prelude.{map};
    ghost use Rattle.std.specs.String.{string_bytes};
    ghost use Rattle.pkg_name.specs.Name.{NameParts, IsName};

    ghost Value = { NameParts };

    ghost view = { λ name. record {
      stem = string_bytes name.stem;
      version = name.version;
      flavors = map string_bytes name.flavors.items;
    } };

    ghost invariant = { λ name. IsName (record {
      stem = string_bytes name.stem;
      version = name.version;
      flavors = map string_bytes name.flavors.items;
    }) };
}

impl PkgName {
    /// The parts of the package's name that a text is. The version begins at the first digit that follows a
    /// dash, and ends before the next dash. The stem is before it, and the flavors are after it, each after a
    /// dash.
    ///
    /// The fault is `NoName` if the text is no name, and `Memory` if memory runs out.
    pub fn split(alloc: Global, text: &str) -> Result<PkgName, NameFault>
        ensures ok { IfOk result (λ name. split_name text.now ≡ Some name) }
        ensures no_name { IsErrOf result NameFault.NoName → split_name text.now ≡ None }
    {
        let Some((stem, behind)) = cut_at_version(text) else {
            return Err(NameFault::NoName);
        };
        let words = split_at(alloc, behind, '-')?;
        let Some((version, flavors)) = version_and_flavors(stem, &words) else {
            return Err(NameFault::NoName);
        };
        let version = match Version::read(alloc, version) {
            Ok(version) => version,
            Err(VersionFault::NoVersion) => return Err(NameFault::NoName),
            Err(VersionFault::Memory(refused)) => return Err(NameFault::Memory(refused)),
        };
        Ok(PkgName {
            stem: String::from_str(alloc, stem)?,
            version,
            flavors: copies_of(alloc, flavors)?,
        })
    }

    /// The text of the package's name, which is split into the same name again. It fails only if memory runs
    /// out.
    pub fn text(&self, alloc: Global) -> Result<String, AllocError>
        ensures text { IfOk result (λ text. string_bytes text ≡ name_text self.now) }
        ensures split { IfOk result (λ text. split_name (string_bytes text) ≡ Some self.now) }
    {
        self.is_split_from_its_text();
        format!(in alloc; "{self}")
    }

    /// Each name of a package is split from its text again. The function does nothing: its clause says so.
    fn is_split_from_its_text(&self)
        ensures { split_name (name_text self.now) ≡ Some self.now }
    {
        let _stem = self.stem.as_str();
    }

    /// The stem of the package's name: what is before the version.
    pub fn stem(&self) -> &str
        ensures { result.now ≡ self.now.stem }
    {
        self.stem.as_str()
    }

    /// The version in the package's name.
    pub fn version(&self) -> &Version
        ensures { result.now ≡ self.now.version }
    {
        &self.version
    }

    /// The flavors in the package's name, in the order of the text.
    pub fn flavors(&self) -> &[String]
        ensures { map string_bytes result.now ≡ self.now.flavors }
    {
        self.flavors.as_slice()
    }
}

impl fmt::Display for PkgName {
    ghost output = { λ name. Some (name_text name) };

    /// Writes the text of the package's name.
    fn fmt<W: fmt::Write>(&self, f: &mut fmt::Formatter<W>) -> fmt::Result {
        f.write_str(self.stem())?;
        f.write_str("-")?;
        f.write_str(self.version.as_str())?;
        for flavor in self.flavors() {
            f.write_str("-")?;
            f.write_str(flavor)?;
        }
        Ok(())
    }
}

/// What is before the first dash in a package's name that a digit follows, and what follows that dash.
fn cut_at_version(text: &str) -> Option<(&str, &str)>
    ensures { CutsAtVersion result text.now }
{
    cut_where(text, '-', begins_with_digit)
}

/// The words after the stem of a package's name: the version, not read yet, and the flavors. `None` if the
/// stem or a flavor isn't one.
fn version_and_flavors<'a, 'b>(stem: &str, words: &'b [&'a str]) -> Option<(&'a str, &'b [&'a str])>
    ensures { CutsFlavors result stem.now words.now }
{
    let (version, flavors) = words.split_first()?;
    if is_word_text(stem) && are_words(flavors) {
        Some((version, flavors))
    } else {
        None
    }
}

/// Whether each text may be a stem or a flavor in a package's name.
fn are_words(texts: &[&str]) -> bool
    ensures { result ≡ list_all (λ text. is_stem_or_flavor text.now) texts.now }
{
    texts.iter().all(|text| is_word_text(text))
}

/// Whether a text may be a stem or a flavor in a package's name.
fn is_word_text(text: &str) -> bool
    ensures { result ≡ is_stem_or_flavor text.now }
{
    !text.is_empty() && has_word_bytes(text)
}

/// Whether each byte of a text may be in the stem or a flavor of a package's name.
fn has_word_bytes(text: &str) -> bool
    ensures { result ≡ list_all (λ byte. not (is_forbidden byte)) text.now }
{
    text.bytes().all(|byte| !is_forbidden_byte(byte))
}

/// Whether a byte may be in no stem and in no flavor of a package's name.
fn is_forbidden_byte(byte: u8) -> bool
    ensures { result ≡ is_forbidden byte }
{
    matches!(
        byte,
        b' ' | b'\t' | b'/' | b',' | b'|' | b'<' | b'>' | b'=' | b'*' | b'!'
    )
}
