//! Package specs: read from texts, and matched against names of packages.
ghost use Rattle.std.specs.Prelude.{◌≡◌, ◌==◌, ◌++◌, ◌||◌, IfOk, IsErrOf, Some, IsOk, map, option_to_list};
ghost use Rattle.std.specs.List.{slice_split, filter_map, list_any};
ghost use Rattle.std.specs.Result.{result_ok};
ghost use Rattle.pkg_spec.specs.Alternatives.{spec_of};
ghost use Rattle.general_facts.specs.Ascii.{bar};
ghost use Rattle.text_parts.specs.Cuts.{now_all};
ghost use Rattle.pkg_spec.specs.Seen.{one_admits, ReadsParts};
ghost use Rattle.pkg_spec.specs.ReadResults.{RefusesAs, AddsIfRead, NotesRefusal};
ghost use Rattle.pkg_spec.specs.NameSet.{admitted_by};

use crate::alternatives::Alternative;
use crate::faults::SpecFault;
use pkg_name::PkgName;
use std::alloc::{AllocError, Global};
use std::fmt;
use std::marker::Model;
use text_parts::split_at;

/// A spec of packages: alternatives, each a stem, the versions that it takes and maybe flavors, such as
/// `foo->=1.0,<2-gtk-!debug|bar-*` (packages-specs(7)).
///
/// It means a set of packages' names. It prints as the text that it was read from, and clauses see the
/// bytes of that text.
#[derive(Debug, Drop)]
pub struct Spec {
    text: String,
    alternatives: Vec<Alternative>,
}

impl Model for Spec {
    ghost use Rattle.std.specs.Prelude.{List, ℕ, map};
    ghost use Rattle.std.specs.String.{string_bytes};
    ghost use Rattle.pkg_spec.specs.NameSet.{IsSpec};
    ghost use Rattle.pkg_spec.specs.Seen.{alternative_seen};

    ghost Value = { List ℕ };

    ghost view = { λ spec. string_bytes spec.text };

    ghost invariant = { λ spec. IsSpec (string_bytes spec.text) (map alternative_seen spec.alternatives.items) };
}

impl Spec {
    /// The package spec that a text is.
    ///
    /// Bars separate its alternatives. The stem of an alternative ends before the first dash that a
    /// digit, `*` or a sign follows. Then come the versions, which are `*` or comparisons with commas
    /// between them. Then come the flavors, each after a further dash. A comparison is a version after
    /// one of `< <= = >= >`; without a sign it is `=`.
    ///
    /// The fault is the first of these that fits any alternative. It is `NoStem` if the alternative has
    /// no stem or no versions. It is `BadVersion` if what should be the version of a comparison isn't
    /// one, or a flavor has no name. It is `EmptyAlternative` if the alternative is empty. Whenever
    /// memory runs out, it is `Memory`.
    pub fn read(alloc: Global, text: &str) -> Result<Spec, SpecFault>
        ensures text { IfOk result (λ spec. spec ≡ text.now) }
        ensures ok { IfOk result (λ spec. IsOk (spec_of spec)) }
        ensures no_stem { RefusesAs result SpecFault.NoStem (spec_of text.now) }
        ensures bad_version { RefusesAs result SpecFault.BadVersion (spec_of text.now) }
        ensures empty { RefusesAs result SpecFault.EmptyAlternative (spec_of text.now) }
    {
        let parts = split_at(alloc, text, '|')?;
        let reading = read_parts(alloc, &parts)?;
        if reading.no_stem {
            return Err(SpecFault::NoStem);
        }
        if reading.bad_version {
            return Err(SpecFault::BadVersion);
        }
        if reading.empty {
            return Err(SpecFault::EmptyAlternative);
        }
        Ok(Spec {
            text: String::from_str(alloc, text)?,
            alternatives: reading.alternatives,
        })
    }

    /// Whether the spec admits a name: whether one of its alternatives does. An alternative admits a
    /// name if all of this holds. Its stem is the name's stem, or is `STEM`, which means every stem. The
    /// version meets all of its comparisons. The name has each flavor that it gives without `!`, and no
    /// flavor that it gives after `!`. It takes no memory.
    pub fn matches(&self, name: &PkgName) -> bool
        ensures { result ≡ admitted_by self.now name.now }
    {
        one_admits(&self.alternatives, name)
    }

    /// The text of the package spec.
    pub fn as_str(&self) -> &str
        ensures text { result.now ≡ self.now }
        ensures is_spec { IsOk (spec_of self.now) }
    {
        self.text.as_str()
    }
}

impl fmt::Display for Spec {
    ghost output = { λ spec. Some spec };

    /// Writes the text of the package spec.
    fn fmt<W: fmt::Write>(&self, f: &mut fmt::Formatter<W>) -> fmt::Result {
        f.write_str(self.as_str())
    }
}

/// Whether one of a spec's alternatives admits a package's name.
fn one_admits(alternatives: &[Alternative], name: &PkgName) -> bool
    ensures { result ≡ one_admits alternatives.now name.now }
{
    alternatives
        .iter()
        .any(|alternative| alternative.admits(name))
}

/// The alternatives of a spec that are read so far, and for each refusal whether one of the texts had it.
#[derive(Drop)]
struct Reading {
    alternatives: Vec<Alternative>,
    no_stem: bool,
    bad_version: bool,
    empty: bool,
}

impl Reading {
    /// The reading of a spec with one more alternative.
    fn with(mut self, alloc: Global, text: &str) -> Result<Reading, AllocError>
        ensures alternatives { AddsIfRead result self text.now }
        ensures no_stem { NotesRefusal result SpecFault.NoStem self text.now }
        ensures bad_version { NotesRefusal result SpecFault.BadVersion self text.now }
        ensures empty { NotesRefusal result SpecFault.EmptyAlternative self text.now }
    {
        match Alternative::read(alloc, text) {
            Ok(alternative) => self.alternatives.push(alternative)?,
            Err(SpecFault::NoStem) => self.no_stem = true,
            Err(SpecFault::BadVersion) => self.bad_version = true,
            Err(SpecFault::EmptyAlternative) => self.empty = true,
            Err(SpecFault::Memory(refused)) => return Err(refused.into()),
        }
        Ok(self)
    }
}

/// What the parts between the bars of a spec say, read one after another.
fn read_parts(alloc: Global, parts: &[&str]) -> Result<Reading, AllocError>
    ensures { IfOk result (ReadsParts (now_all parts.now)) }
{
    let mut reading = Reading {
        alternatives: Vec::new(alloc),
        no_stem: false,
        bad_version: false,
        empty: false,
    };
    for part in parts {
        reading = reading.with(alloc, part)?;
    }
    Ok(reading)
}
