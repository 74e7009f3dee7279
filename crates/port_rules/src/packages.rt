//! The packages of a port, read from its variables.
ghost use Rattle.std.specs.Prelude.{◌≡◌, map, string_bytes, IfOk};
ghost use Rattle.std.specs.List.{list_all};
ghost use Rattle.port_rules.specs.Packages as packages;
ghost use Rattle.port_rules.specs.Packages.{GivesEach, GivesPackage, GivesPackages};
ghost use Rattle.port_rules.specs.Values.{GivesWords};

use crate::asked_variables::{asked_words, package_text};
use crate::flavors::PortFlavors;
use crate::package_names::full_name;
use crate::text_sets::has_double;
use mk_base::{Budget, FaultKind, PureStop};
use mk_env::Env;
use pkg_name::PkgName;
use std::alloc::{AllocError, Global};
use std::marker::Model;

/// A package of a port: which one it is, its full name and its comment.
#[derive(Debug, Drop)]
pub struct Package {
    subpackage: String,
    name: PkgName,
    comment: String,
}

impl Model for Package {
    ghost use Rattle.std.specs.Prelude.{string_bytes};
    ghost use Rattle.port_rules.specs.Packages.{PackageValue};

    ghost Value = { PackageValue };

    ghost view = { λ p. record { subpackage = string_bytes p.subpackage; name = p.name; comment = string_bytes p.comment } };
}

impl Package {
    /// The package of a port that has this name among the port's packages, with its full name and its
    /// comment.
    pub fn new(subpackage: String, name: PkgName, comment: String) -> Package
        ensures { result ≡ packages.package_in subpackage name comment }
    {
        Package {
            subpackage,
            name,
            comment,
        }
    }

    /// Which package of the port it is, with its dash, such as `-main`; `-` for the one package of a port
    /// without MULTI_PACKAGES.
    pub fn subpackage(&self) -> &str
        ensures { result.now ≡ self.now.subpackage }
    {
        self.subpackage.as_str()
    }

    /// The full name of the package of a port.
    pub fn name(&self) -> &PkgName
        ensures { result.now ≡ self.now.name }
    {
        &self.name
    }

    /// The comment of the package of a port (COMMENT); empty if there is none.
    pub fn comment(&self) -> &str
        ensures { result.now ≡ self.now.comment }
    {
        self.comment.as_str()
    }
}

/// The names with dashes of a port's packages (MULTI_PACKAGES), or `-` if it names none.
///
/// The faults of expanding MULTI_PACKAGES come first. Then it is `BadName` if a word isn't a dash and a
/// name, or is there twice.
#[tactic(auto, unfolding(crate::specs::Packages::subpackages_of))]
pub(crate) fn read_subpackages(
    alloc: Global,
    env: &Env,
    budget: &mut Budget,
) -> Result<Vec<String>, PureStop<FaultKind>>
    ensures { GivesWords result (packages.subpackages_of env.now) budget.old budget.new }
{
    let mut names = asked_words(alloc, env, "MULTI_PACKAGES", budget)?;
    if !are_subpackages(alloc, &names)? {
        return Err(PureStop::Fault(FaultKind::BadName));
    }
    if names.is_empty() {
        names.push(String::from_str(alloc, "-")?)?;
    }
    Ok(names)
}

/// Whether these words can name the packages of a port in MULTI_PACKAGES.
fn are_subpackages(alloc: Global, names: &[String]) -> Result<bool, AllocError>
    ensures { IfOk result (λ can. can ≡ packages.are_subpackages (map string_bytes names.now)) }
{
    Ok(are_named(names) && !has_double(alloc, names)?)
}

/// Whether each word of MULTI_PACKAGES is a dash and a name.
fn are_named(words: &[String]) -> bool
    ensures { result ≡ list_all packages.is_named_subpackage (map string_bytes words.now) }
{
    for word in words {
        if !is_named(word) {
            return false;
        }
    }
    true
}

/// Whether a word of MULTI_PACKAGES is a dash and a name.
fn is_named(word: &str) -> bool
    ensures { result ≡ packages.is_named_subpackage word.now }
{
    word.starts_with('-') && word != "-"
}

/// The packages of a port with these flavors, read from its variables in order: for each, first the name is
/// read and then the comment.
pub(crate) fn read_packages(
    alloc: Global,
    env: &Env,
    flavors: &PortFlavors,
    subpackages: &[String],
    budget: &mut Budget,
) -> Result<Vec<Package>, PureStop<FaultKind>>
    ensures { GivesPackages result env.now flavors.now subpackages.now budget.old budget.new }
{
    let marks = flavors.marks(alloc)?;
    read_each(alloc, env, &marks, subpackages, budget)
}

/// The packages of a port, read from its variables in order; `marks` are those of the chosen flavors.
fn read_each(
    alloc: Global,
    env: &Env,
    marks: &[&str],
    subpackages: &[String],
    budget: &mut Budget,
) -> Result<Vec<Package>, PureStop<FaultKind>>
    ensures { GivesEach result env.now marks.now subpackages.now budget.old budget.new }
{
    let mut found = Vec::new(alloc);
    for subpackage in subpackages {
        found.push(read_package(alloc, env, marks, subpackage, budget)?)?;
    }
    Ok(found)
}

/// One package of a port, read from its variables: first its full name, then its comment.
#[tactic(auto, unfolding(crate::specs::Packages::package_of))]
fn read_package(
    alloc: Global,
    env: &Env,
    marks: &[&str],
    subpackage: &str,
    budget: &mut Budget,
) -> Result<Package, PureStop<FaultKind>>
    ensures { GivesPackage result env.now marks.now subpackage.now budget.old budget.new }
{
    let name = full_name(alloc, env, marks, subpackage, budget)?;
    let comment = package_text(alloc, env, "COMMENT", subpackage, budget)?;
    let subpackage = String::from_str(alloc, subpackage)?;
    Ok(Package::new(subpackage, name, comment))
}
