//! The comparisons of versions in a package spec.
ghost use Rattle.std.specs.Prelude.{◌≡◌};
ghost use Rattle.pkg_name.specs.Order.{version_cmp};
ghost use Rattle.pkg_spec.specs.Alternatives.{signed, versions_of, comparisons_in};
ghost use Rattle.pkg_spec.specs.NameSet.{allows_ordering};
ghost use Rattle.text_parts.specs.Cuts.{now_all};
ghost use Rattle.pkg_spec.specs.ReadResults.{ReadsComparison, ReadsComparisons};

use pkg_name::{Version, VersionFault};
use std::alloc::{AllocError, Global};
use std::cmp::Ordering;
use text_parts::split_at;

/// How a version must compare with the one in a comparison of a spec.
#[derive(Clone, Copy, Debug, PartialEq, Eq)]
pub(crate) enum ComparisonSign {
    /// `<`
    Below,
    /// `<=`
    AtMost,
    /// `=`, or no sign
    Equals,
    /// `>=`
    AtLeast,
    /// `>`
    Above,
}

/// A comparison of a spec: a sign, and the version after it.
#[derive(Debug, Drop)]
pub(crate) struct Comparison {
    pub(crate) sign: ComparisonSign,
    pub(crate) version: Version,
}

impl Comparison {
    /// The comparison of a spec that a text is; `None` if what follows its sign is no version.
    fn read(alloc: Global, text: &str) -> Result<Option<Comparison>, AllocError>
        ensures { ReadsComparison result text.now }
    {
        let (sign, version) = signed(text);
        match Version::read(alloc, version) {
            Ok(version) => Ok(Some(Comparison { sign, version })),
            Err(VersionFault::NoVersion) => Ok(None),
            Err(VersionFault::Memory(refused)) => Err(refused.into()),
        }
    }

    /// Whether a version meets the comparison of a spec.
    pub(crate) fn holds(&self, version: &Version) -> bool
        ensures { result ≡ allows_ordering self.now.sign (version_cmp version.now self.now.version) }
    {
        match self.sign {
            ComparisonSign::Below => *version < self.version,
            ComparisonSign::AtMost => *version <= self.version,
            ComparisonSign::Equals => *version == self.version,
            ComparisonSign::AtLeast => *version >= self.version,
            ComparisonSign::Above => *version > self.version,
        }
    }
}

/// The sign that a comparison of a spec begins with, and what follows it.
fn signed(text: &str) -> (ComparisonSign, &str)
    ensures sign { result.0 ≡ (signed text.now).sign }
    ensures version { result.1.now ≡ (signed text.now).version }
{
    if let Some(version) = text.strip_prefix("<=") {
        return (ComparisonSign::AtMost, version);
    }
    if let Some(version) = text.strip_prefix(">=") {
        return (ComparisonSign::AtLeast, version);
    }
    if let Some(version) = text.strip_prefix("<") {
        return (ComparisonSign::Below, version);
    }
    if let Some(version) = text.strip_prefix(">") {
        return (ComparisonSign::Above, version);
    }
    match text.strip_prefix("=") {
        Some(version) => (ComparisonSign::Equals, version),
        None => (ComparisonSign::Equals, text),
    }
}

/// The comparisons that the versions of a spec's alternative are: an empty list for `*`; `None` if one of
/// them is no comparison.
pub(crate) fn read_versions(
    alloc: Global,
    versions: &str,
) -> Result<Option<Vec<Comparison>>, AllocError>
    ensures { ReadsComparisons result (versions_of versions.now) }
{
    if versions == "*" {
        return Ok(Some(Vec::new(alloc)));
    }
    let pieces = split_at(alloc, versions, ',')?;
    read_comparisons(alloc, &pieces)
}

/// The comparisons of a spec that texts are; `None` if one of them is no comparison.
fn read_comparisons(alloc: Global, texts: &[&str]) -> Result<Option<Vec<Comparison>>, AllocError>
    ensures { ReadsComparisons result (comparisons_in (now_all texts.now)) }
{
    let mut comparisons = Vec::new(alloc);
    for text in texts {
        let Some(comparison) = Comparison::read(alloc, text)? else {
            return Ok(None);
        };
        comparisons.push(comparison)?;
    }
    Ok(Some(comparisons))
}
