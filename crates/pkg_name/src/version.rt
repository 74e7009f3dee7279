//! Versions of packages: read, printed and compared.
ghost use Rattle.std.specs.Prelude.{◌≡◌, IfOk, IsErrOf, Some, false, true, refl};
ghost use Rattle.refusals.specs.Refused.{refused};
ghost use Rattle.std.specs.List.{list_all};
ghost use Rattle.std.specs.Char.{is_ascii_digit};
ghost use Rattle.std.specs.Str.{bytes_eq};
ghost use Rattle.std.specs.Cmp.{partial_equiv_from_equiv};
ghost use Rattle.std.specs.Cmp.Lexicographic.{nat_list_eq_equiv};
ghost use Rattle.pkg_name.specs.Version.{begins_with_digit, is_version, is_version_byte, has_short_numbers, IsVersion};
ghost use Rattle.pkg_name.specs.Order.{version_cmp};
ghost use Rattle.pkg_name.specs.OrderLaws.{version_cmp_total, version_cmp_ties, version_po};
ghost use Rattle.pkg_name.specs.declared.version.VersionFault.TheVariants.{Memory};

use crate::version_order::compare_versions;
use refusals::OutOfMemory;
use std::alloc::{AllocError, Global};
use std::cmp::Ordering;
use std::fmt;
use std::marker::Model;
use thiserror::Error;

/// The most digits of a number in a version of a package.
const MOST_DIGITS: usize = 18;

/// Why a text is no version of a package.
#[derive(Clone, Copy, Debug, PartialEq, Eq, Error)]
pub enum VersionFault {
    /// It doesn't begin with a digit, has a byte that no version has, or a number of more than 18 digits.
    #[error("not a version")]
    NoVersion,
    /// There was no memory for the version.
    #[error("out of memory")]
    Memory(OutOfMemory),
}

impl From<AllocError> for VersionFault {
    ghost from_gives = { λ _ fault. fault ≡ Memory refused };

    /// The fault that there was no memory for the version of a package.
    fn from(error: AllocError) -> VersionFault {
        VersionFault::Memory(OutOfMemory::from(error))
    }
}

/// The version of a package, such as `1.0rc1p2v0`. It has ASCII letters, digits, `.`, `_` and `+`, and
/// the first of them is a digit. It has no number of more than 18 digits (packages-specs(7)). Clauses
/// see its bytes.
///
/// Versions are ordered first by a final `v` and its number. Then come the parts between the dots of
/// what is before a final `p` and `v`. Each part is ordered by the number that it begins with, the
/// letters after that, the number after these, and the rest. Then come a final `p` and its number, and
/// then the texts. So two versions are equal exactly if their texts are the same.
#[derive(Debug, Drop)]
pub struct Version {
    text: String,
}

impl Model for Version {
    ghost use Rattle.std.specs.Prelude.{List, ℕ};
    ghost use Rattle.std.specs.String.{string_bytes};
    ghost use Rattle.pkg_name.specs.Version.{IsVersion};

    ghost Value = { List ℕ };

    ghost view = { λ version. string_bytes version.text };

    ghost invariant = { λ version. IsVersion (string_bytes version.text) };
}

impl Version {
    /// The version of a package that a text is.
    ///
    /// The fault is `NoVersion` if the text is no version, and `Memory` if memory runs out.
    pub fn read(alloc: Global, text: &str) -> Result<Version, VersionFault>
        ensures text { IfOk result (λ version. version ≡ text.now) }
        ensures ok { IfOk result (λ version. IsVersion version) }
        ensures no_version { IsErrOf result VersionFault.NoVersion → is_version text.now ≡ false }
    {
        if !is_version_text(text.as_bytes()) {
            return Err(VersionFault::NoVersion);
        }
        Ok(Version {
            text: String::from_str(alloc, text)?,
        })
    }

    /// The text of a package's version.
    pub fn as_str(&self) -> &str
        ensures text { result.now ≡ self.now }
        ensures version { IsVersion self.now }
    {
        self.text.as_str()
    }
}

impl fmt::Display for Version {
    ghost output = { λ version. Some version };

    /// Writes the text of a package's version.
    fn fmt<W: fmt::Write>(&self, f: &mut fmt::Formatter<W>) -> fmt::Result {
        fmt::Display::fmt(&self.as_str(), f)
    }
}

impl PartialEq for Version {
    ghost eq = { bytes_eq };

    ghost laws = { partial_equiv_from_equiv nat_list_eq_equiv };

    /// Whether two versions of packages are equal, which is so exactly if their texts are the same.
    fn eq(&self, other: &Version) -> bool {
        self.as_str() == other.as_str()
    }
}

impl Eq for Version {
    ghost laws = { nat_list_eq_equiv };
}

impl PartialOrd for Version {
    ghost partial_cmp = { λ a b. Some (version_cmp a b) };

    ghost laws = { version_po };

    /// How two versions of packages compare: any two do.
    fn partial_cmp(&self, other: &Version) -> Option<Ordering> {
        Some(self.cmp(other))
    }
}

impl Ord for Version {
    ghost cmp = { version_cmp };

    ghost total = { version_cmp_total };

    ghost matches_partial_cmp = { λ a b. refl };

    ghost matches_eq = { version_cmp_ties };

    /// How two versions of packages compare, in the order of versions.
    fn cmp(&self, other: &Version) -> Ordering {
        compare_versions(self.text.as_bytes(), other.text.as_bytes())
    }
}

/// Whether a text is a version of a package.
fn is_version_text(text: &[u8]) -> bool
    ensures { result ≡ is_version text.now }
{
    begins_with_digit(text) && has_version_bytes(text) && numbers_are_short(text)
}

/// Whether a text begins with a digit, as each version of a package does.
pub(crate) fn begins_with_digit(text: &[u8]) -> bool
    ensures { result ≡ begins_with_digit text.now }
{
    match text.first() {
        Some(byte) => byte.is_ascii_digit(),
        None => false,
    }
}

/// Whether each byte of a text may be in a version of a package.
fn has_version_bytes(text: &[u8]) -> bool
    ensures { result ≡ list_all is_version_byte text.now }
{
    text.iter().all(|byte| may_be_in_version(*byte))
}

/// Whether a byte may be in a version of a package.
fn may_be_in_version(byte: u8) -> bool
    ensures { result ≡ is_version_byte byte }
{
    byte.is_ascii_alphanumeric() || byte == b'.' || byte == b'_' || byte == b'+'
}

/// Whether no number in a version of a package has more than 18 digits.
fn numbers_are_short(text: &[u8]) -> bool
    ensures { result ≡ has_short_numbers text.now }
{
    let mut digits = 0;
    for byte in text {
        digits = if byte.is_ascii_digit() { digits + 1 } else { 0 };
        if digits > MOST_DIGITS {
            return false;
        }
    }
    true
}
