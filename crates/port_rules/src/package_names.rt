//! The full names of a port's packages, made from its variables.
ghost use Rattle.std.specs.Prelude.{◌≡◌, ◌<◌, ◌++◌, ◌∷◌, string_bytes, OnOk};
ghost use Rattle.pkg_name.specs.Name.{split_name};
ghost use Rattle.general_facts.specs.Ascii.{dash};
ghost use Rattle.port_rules.specs.Packages as packages;
ghost use Rattle.port_rules.specs.Packages.{GivesDefaultName, GivesFullName, GivesMarkedName};
ghost use Rattle.port_rules.specs.Packages.{AddsLettered, Extends, GivesNameFreely, GivesPresent};
ghost use Rattle.port_rules.specs.Values.{MayGive};

use crate::asked_variables::{ending, own_value, package_value, value_or};
use mk_base::{Budget, FaultKind, PureStop};
use mk_env::Env;
use pkg_name::{NameFault, PkgName};
use std::alloc::{AllocError, Global};

/// The full name of a package (bsd.port.mk(5), FULLPKGNAME). `marks` are those of the chosen flavors.
///
/// Besides the faults of expanding what is asked, there are these. If FULLPKGNAME is defined, it is
/// `NoName` if that is empty, and `BadName` if that is no package's name. Otherwise it is `NoName` if
/// PKGNAME is empty or there is none. Then, once REVISION and EPOCH are expanded, it is `BadName` if
/// PKGNAME or the whole name is no package's name.
#[tactic(auto, unfolding(crate::specs::Packages::full_name))]
pub(crate) fn full_name(
    alloc: Global,
    env: &Env,
    marks: &[&str],
    subpackage: &str,
    budget: &mut Budget,
) -> Result<PkgName, PureStop<FaultKind>>
    ensures { GivesFullName result env.now marks.now subpackage.now budget.old budget.new }
{
    match own_value(alloc, env, "FULLPKGNAME", subpackage, budget)? {
        Some(text) => whole_name(alloc, text),
        None => default_name(alloc, env, marks, subpackage, budget),
    }
}

/// The full name of a package that the text of FULLPKGNAME is.
fn whole_name(alloc: Global, text: String) -> Result<PkgName, PureStop<FaultKind>>
    ensures { GivesNameFreely result (packages.whole_name (string_bytes text)) }
{
    let text = present(Some(text))?;
    read_name(alloc, text.as_str())
}

/// The full name of a package that is made from PKGNAME.
///
/// REVISION and EPOCH are asked before PKGNAME is read as a name.
#[tactic(auto, unfolding(crate::specs::Packages::default_name))]
fn default_name(
    alloc: Global,
    env: &Env,
    marks: &[&str],
    subpackage: &str,
    budget: &mut Budget,
) -> Result<PkgName, PureStop<FaultKind>>
    ensures { GivesDefaultName result env.now marks.now subpackage.now budget.old budget.new }
{
    let base = package_base(alloc, env, subpackage, budget)?;
    let base = present(base)?;
    let revision = package_value(alloc, env, "REVISION", subpackage, budget)?;
    let epoch = package_value(alloc, env, "EPOCH", subpackage, budget)?;
    marked_name(alloc, base.as_str(), &revision, &epoch, marks)
}

/// The PKGNAME of a package of a port: its own, or the port's with an ending added.
#[tactic(auto, unfolding(crate::specs::Packages::package_base))]
fn package_base(
    alloc: Global,
    env: &Env,
    subpackage: &str,
    budget: &mut Budget,
) -> Result<Option<String>, PureStop<FaultKind>>
    ensures { MayGive result (packages.package_base env.now subpackage.now) budget.old budget.new }
{
    if let Some(text) = own_value(alloc, env, "PKGNAME", subpackage, budget)? {
        return Ok(Some(text));
    }
    match value_or(alloc, env, "PKGNAME", "DISTNAME", budget)? {
        Some(text) => {
            let mut text = text;
            text.push_str(added_ending(subpackage))?;
            Ok(Some(text))
        }
        None => Ok(None),
    }
}

/// The ending that is added to the port's PKGNAME for a package without a PKGNAME of its own.
fn added_ending(subpackage: &str) -> &str
    ensures { result.now ≡ packages.added_ending subpackage.now }
{
    if subpackage == "-main" {
        ""
    } else {
        ending(subpackage)
    }
}

/// The text of a package's name that must be there and not be empty; else the fault `NoName`.
fn present(found: Option<String>) -> Result<String, FaultKind>
    ensures { GivesPresent result found }
{
    match found {
        Some(text) if !text.is_empty() => Ok(text),
        _ => Err(FaultKind::NoName),
    }
}

/// The name of a package that a text of a port's variable is; else the fault `BadName`.
fn read_name(alloc: Global, text: &str) -> Result<PkgName, PureStop<FaultKind>>
    ensures { GivesNameFreely result (packages.readable (split_name text.now)) }
{
    match PkgName::split(alloc, text) {
        Ok(name) => Ok(name),
        Err(NameFault::NoName) => Err(PureStop::Fault(FaultKind::BadName)),
        Err(NameFault::Memory(refused)) => Err(PureStop::Memory(refused)),
    }
}

/// The full name of a package whose PKGNAME is `base`, with its revision, its epoch and the marks.
fn marked_name(
    alloc: Global,
    base: &str,
    revision: &Option<String>,
    epoch: &Option<String>,
    marks: &[&str],
) -> Result<PkgName, PureStop<FaultKind>>
    ensures { GivesMarkedName result base.now revision.now epoch.now marks.now }
{
    let name = read_name(alloc, base)?;
    let extended = extended(alloc, &name, revision, epoch, marks)?;
    read_name(alloc, extended.as_str())
}

/// The text of a package's full name: the name with revision and epoch after its version, and marks at its
/// end.
fn extended(
    alloc: Global,
    name: &PkgName,
    revision: &Option<String>,
    epoch: &Option<String>,
    marks: &[&str],
) -> Result<String, AllocError>
    ensures { Extends result name.now revision.now epoch.now marks.now }
{
    let mut text = format!(in alloc; "{}-{}", name.stem(), name.version())?;
    put_lettered(&mut text, 'p', revision)?;
    put_lettered(&mut text, 'v', epoch)?;
    for flavor in name.flavors() {
        put_word(&mut text, flavor)?;
    }
    for mark in marks {
        put_word(&mut text, mark)?;
    }
    Ok(text)
}

/// Adds the letter for a revision or an epoch and its value to the text of a package's full name, if there is
/// a value.
fn put_lettered(text: &mut String, letter: char, value: &Option<String>) -> Result<(), AllocError>
    requires { letter < 128 }
    ensures { AddsLettered result text.old letter value.now text.new }
{
    if let Some(value) = value {
        text.push(letter)?;
        text.push_str(value.as_str())?;
    }
    Ok(())
}

/// Adds a dash and a word to the text of a package's full name.
fn put_word(text: &mut String, word: &str) -> Result<(), AllocError>
    ensures { OnOk result (string_bytes text.new ≡ string_bytes text.old ++ dash ∷ word.now) }
{
    text.push('-')?;
    text.push_str(word)
}
