//! Listed packages: the packages of the roots that meet a query or that a spec admits.
ghost use Rattle.std.specs.Prelude.{◌≡◌};
ghost use Rattle.pkg_name.specs.Name.{name_text};
ghost use Rattle.ports_query.specs.ListedPackages as listed;
ghost use Rattle.ports_query.specs.ListedPackages.{ListsPackages, AddsListed, AddsPassing, listed_there, root_listed, test_seen};
ghost use Rattle.ports_query.specs.Candidate.{TellsIf};

use crate::candidate::{Candidate, meets_all};
use crate::query::Query;
use pkg_name::PkgName;
use pkg_spec::Spec;
use port_deps::Root;
use port_rules::{Package, PortRecord};
use std::alloc::{AllocError, Global};
use std::marker::Model;

/// A package that is listed, with the canonical path of its port. Both are lent.
#[derive(Debug, Drop)]
pub struct Listed<'a> {
    path: &'a str,
    found: &'a Package,
}

impl<'a> Model for Listed<'a> {
    ghost use Rattle.ports_query.specs.ListedPackages.{ListedValue, listed_at};

    ghost Value = { ListedValue };

    ghost view = { λ l. listed_at l.path.now l.found.now };
}

impl<'a> Listed<'a> {
    /// The full name of the listed package.
    pub fn name(&self) -> &'a PkgName
        ensures { name_text result.now ≡ self.now.name }
    {
        self.found.name()
    }

    /// The canonical path of the listed package's port.
    pub fn path(&self) -> &'a str
        ensures { result.now ≡ self.now.path }
    {
        self.path
    }

    /// Which package of its port the listed package is, with its dash; `-` for the one package of a port
    /// without MULTI_PACKAGES.
    pub fn subpackage(&self) -> &'a str
        ensures { result.now ≡ self.now.subpackage }
    {
        self.found.subpackage()
    }
}

/// The test that packages must pass to be listed: the conditions of a query, or a spec.
#[derive(Clone, Copy)]
enum Test<'a> {
    Meets(&'a Query),
    Admitted(&'a Spec),
}

/// The listed packages of a query: those of these roots that meet all its conditions. They come root by root
/// in the order of the roots, those of a root in the order of the port. A root with a fault has none. It
/// fails only if memory runs out.
pub fn answer<'a>(
    alloc: Global,
    query: &Query,
    roots: &[Root<'a>],
) -> Result<Vec<Listed<'a>>, AllocError>
    ensures { ListsPackages result (listed.answer_of query.now roots.now) }
{
    list(alloc, Test::Meets(query), roots)
}

/// The listed packages of a spec: those of these roots that the spec admits (packages-specs(7)). They come
/// root by root in the order of the roots, those of a root in the order of the port. A root with a fault has
/// none. It fails only if memory runs out.
pub fn admitted<'a>(
    alloc: Global,
    spec: &Spec,
    roots: &[Root<'a>],
) -> Result<Vec<Listed<'a>>, AllocError>
    ensures { ListsPackages result (listed.admitted_of spec.now roots.now) }
{
    list(alloc, Test::Admitted(spec), roots)
}

/// Whether a spec admits at least one package of a port.
pub fn admits_one(spec: &Spec, port: &PortRecord) -> bool
    ensures { result ≡ listed.admits_one spec.now port.now }
{
    port.packages()
        .iter()
        .any(|found| spec.matches(found.name()))
}

/// The listed packages of a test: those of these roots that pass it.
fn list<'a>(
    alloc: Global,
    test: Test<'_>,
    roots: &[Root<'a>],
) -> Result<Vec<Listed<'a>>, AllocError>
    ensures { ListsPackages result (listed.listed_packages (test_seen test.entry) roots.now) }
{
    let mut listed = Vec::new(alloc);
    for root in roots {
        list_root(alloc, test, root, &mut listed)?;
    }
    Ok(listed)
}

/// Adds the packages of a root that pass a test to those that are listed.
fn list_root<'a>(
    alloc: Global,
    test: Test<'_>,
    root: &Root<'a>,
    listed: &mut Vec<Listed<'a>>,
) -> Result<(), AllocError>
    ensures { AddsListed result listed.old listed.new (root_listed test.entry root.now) }
{
    match root.state() {
        Ok(port) => list_port(alloc, test, root.path(), port, listed),
        Err(_fault) => Ok(()),
    }
}

/// Adds the packages of a port that pass a test to those that are listed.
fn list_port<'a>(
    alloc: Global,
    test: Test<'_>,
    path: &'a str,
    port: &'a PortRecord,
    listed: &mut Vec<Listed<'a>>,
) -> Result<(), AllocError>
    ensures { AddsListed result listed.old listed.new (listed_there test.entry path.now port.now) }
{
    for found in port.packages() {
        list_package(alloc, test, Candidate { path, port, found }, listed)?;
    }
    Ok(())
}

/// Adds a package to those that are listed, if it passes a test.
fn list_package<'a>(
    alloc: Global,
    test: Test<'_>,
    candidate: Candidate<'a>,
    listed: &mut Vec<Listed<'a>>,
) -> Result<(), AllocError>
    ensures { AddsPassing result listed.old listed.new test.entry candidate.entry }
{
    if passes(alloc, test, candidate)? {
        listed.push(Listed {
            path: candidate.path,
            found: candidate.found,
        })?;
    }
    Ok(())
}

/// Whether a package passes the test by which packages are listed.
fn passes(alloc: Global, test: Test<'_>, candidate: Candidate<'_>) -> Result<bool, AllocError>
    ensures { TellsIf result (listed.passes test.entry candidate.entry) }
{
    match test {
        Test::Meets(query) => meets_all(alloc, query.conditions(), candidate),
        Test::Admitted(spec) => Ok(spec.matches(candidate.found.name())),
    }
}
