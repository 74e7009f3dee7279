//! The alternatives of a package spec: each read from its text, and which names of packages it admits.
ghost use Rattle.std.specs.Prelude.{◌≡◌, ◌==◌, ◌&&◌, not, IfOk, IsErrOf, MatchOption, Some, None, true, false, map};
ghost use Rattle.std.specs.Prelude.{filter, drop, slice_index};
ghost use Rattle.std.specs.List.{list_all, list_any, slice_split};
ghost use Rattle.std.specs.Str.{bytes_eq};
ghost use Rattle.std.specs.String.{string_bytes};
ghost use Rattle.pkg_spec.specs.Alternatives.{alternative_of, at_versions, begins_versions, forbids, has_name};
ghost use Rattle.pkg_spec.specs.Alternatives.{wanted_among, forbidden_among};
ghost use Rattle.text_parts.specs.Cuts.{now_all};
ghost use Rattle.pkg_spec.specs.NameSet.{set_of_alternative, with_stem, having};
ghost use Rattle.pkg_spec.specs.Seen.{meets_comparisons, has_all, has_none};
ghost use Rattle.pkg_spec.specs.ReadResults.{ReadsAlternative, RefusesAs, GivesCut, GivesFlavors, GivesForbidden};

use crate::comparisons::{Comparison, read_versions};
use crate::faults::SpecFault;
use pkg_name::PkgName;
use std::alloc::{AllocError, Global};
use text_parts::{cut_where, split_at};

/// An alternative of a package spec.
#[derive(Debug, Drop)]
pub(crate) struct Alternative {
    pub(crate) stem: String,
    pub(crate) comparisons: Vec<Comparison>,
    pub(crate) wanted: Vec<String>,
    pub(crate) forbidden: Vec<String>,
}

impl Alternative {
    ghost use Rattle.pkg_spec.specs.Seen.{alternative_seen, admits_after_stem, admits_flavors};

    /// The alternative of a spec that a text is, or the refusal that fits.
    pub(crate) fn read(alloc: Global, text: &str) -> Result<Alternative, SpecFault>
        ensures ok { ReadsAlternative result text.now }
        ensures no_stem { RefusesAs result SpecFault.NoStem (alternative_of text.now) }
        ensures bad_version { RefusesAs result SpecFault.BadVersion (alternative_of text.now) }
        ensures empty { RefusesAs result SpecFault.EmptyAlternative (alternative_of text.now) }
    {
        if text.is_empty() {
            return Err(SpecFault::EmptyAlternative);
        }
        let Some((stem, behind)) = cut_at_versions(text) else {
            return Err(SpecFault::NoStem);
        };
        if stem.is_empty() {
            return Err(SpecFault::NoStem);
        }
        let words = split_at(alloc, behind, '-')?;
        let Some((versions, flavors)) = words.as_slice().split_first() else {
            return Err(SpecFault::NoStem);
        };
        let Some(comparisons) = read_versions(alloc, versions)? else {
            return Err(SpecFault::BadVersion);
        };
        if !all_have_names(flavors) {
            return Err(SpecFault::BadVersion);
        }
        Ok(Alternative {
            stem: String::from_str(alloc, stem)?,
            comparisons,
            wanted: wanted_of(alloc, flavors)?,
            forbidden: forbidden_of(alloc, flavors)?,
        })
    }

    /// Whether the alternative of a spec admits a package's name.
    pub(crate) fn admits(&self, name: &PkgName) -> bool
        ensures { result ≡ set_of_alternative (alternative_seen self.now) name.now }
    {
        fits_stem(self.stem.as_str(), name) && self.admits_after_stem(name)
    }

    /// Whether the alternative of a spec admits the version and the flavors of a package's name.
    fn admits_after_stem(&self, name: &PkgName) -> bool
        ensures { result ≡ admits_after_stem self.now name.now }
    {
        all_hold(&self.comparisons, name) && self.admits_flavors(name)
    }

    /// Whether the alternative of a spec admits the flavors of a package's name.
    fn admits_flavors(&self, name: &PkgName) -> bool
        ensures { result ≡ admits_flavors self.now name.now }
    {
        has_all(name, &self.wanted) && has_none(name, &self.forbidden)
    }
}

/// Whether the stem that an alternative of a spec asks for fits that of a package's name.
fn fits_stem(stem: &str, name: &PkgName) -> bool
    ensures { result ≡ with_stem stem.now name.now }
{
    stem == "STEM" || stem == name.stem()
}

/// Whether the version of a package's name meets each comparison of a spec's alternative.
fn all_hold(comparisons: &[Comparison], name: &PkgName) -> bool
    ensures { result ≡ meets_comparisons comparisons.now name.now }
{
    let version = name.version();
    comparisons
        .iter()
        .all(|comparison| comparison.holds(version))
}

/// Whether a package's name has each flavor that an alternative of a spec wants.
fn has_all(name: &PkgName, wanted: &[String]) -> bool
    ensures { result ≡ has_all wanted.now name.now }
{
    wanted
        .iter()
        .all(|flavor| has_flavor(name, flavor.as_str()))
}

/// Whether a package's name has none of the flavors that an alternative of a spec forbids.
fn has_none(name: &PkgName, forbidden: &[String]) -> bool
    ensures { result ≡ has_none forbidden.now name.now }
{
    forbidden
        .iter()
        .all(|flavor| !has_flavor(name, flavor.as_str()))
}

/// Whether a package's name has a flavor that a spec's alternative gives.
fn has_flavor(name: &PkgName, flavor: &str) -> bool
    ensures { result ≡ having flavor.now name.now }
{
    is_among(name.flavors(), flavor)
}

/// Whether a flavor is among the flavors of a package's name.
fn is_among(others: &[String], text: &str) -> bool
    ensures { result ≡ list_any (λ other. bytes_eq text.now (string_bytes other)) others.now }
{
    others.iter().any(|other| text == other.as_str())
}

/// The text of a spec's alternative, cut at the first dash that a digit, `*` or a sign follows: what is
/// before that dash, and what follows it.
fn cut_at_versions(text: &str) -> Option<(&str, &str)>
    ensures { GivesCut result (at_versions text.now) }
{
    cut_where(text, '-', begins_versions)
}

/// Whether a text begins as the versions of a spec's alternative do: with a digit, `*` or a sign.
fn begins_versions(text: &[u8]) -> bool
    ensures { result ≡ begins_versions text.now }
{
    match text.first() {
        Some(byte) => byte.is_ascii_digit() || matches!(*byte, b'*' | b'<' | b'=' | b'>'),
        None => false,
    }
}

/// Whether each flavor of a spec's alternative has a name.
fn all_have_names(flavors: &[&str]) -> bool
    ensures { result ≡ list_all (λ flavor. has_name flavor.now) flavors.now }
{
    flavors.iter().all(|flavor| has_name(flavor))
}

/// Whether a flavor of a spec's alternative has a name.
fn has_name(flavor: &str) -> bool
    ensures { result ≡ has_name flavor.now }
{
    flavor != "" && flavor != "!"
}

/// The name of a flavor that a spec's alternative forbids; `None` if the flavor isn't forbidden.
fn forbidden_name(flavor: &str) -> Option<&str>
    ensures { GivesForbidden result flavor.now }
{
    flavor.strip_prefix('!')
}

/// Whether a flavor is one that a spec's alternative forbids: one after `!`.
fn forbids(flavor: &str) -> bool
    ensures { result ≡ forbids flavor.now }
{
    flavor.starts_with('!')
}

/// The flavors of a spec's alternative that a name must have.
fn wanted_of(alloc: Global, flavors: &[&str]) -> Result<Vec<String>, AllocError>
    ensures { GivesFlavors result (wanted_among (now_all flavors.now)) }
{
    let mut wanted = Vec::new(alloc);
    for flavor in flavors {
        if !forbids(flavor) {
            wanted.push(String::from_str(alloc, flavor)?)?;
        }
    }
    Ok(wanted)
}

/// The flavors of a spec's alternative that a name must not have.
fn forbidden_of(alloc: Global, flavors: &[&str]) -> Result<Vec<String>, AllocError>
    ensures { GivesFlavors result (forbidden_among (now_all flavors.now)) }
{
    let mut forbidden = Vec::new(alloc);
    for flavor in flavors {
        if let Some(name) = forbidden_name(flavor) {
            forbidden.push(String::from_str(alloc, name)?)?;
        }
    }
    Ok(forbidden)
}
