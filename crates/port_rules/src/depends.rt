//! The dependencies of a port, read from its variables.
ghost use Rattle.std.specs.Prelude.{◌≡◌, string_bytes, IfOk};
ghost use Rattle.std.specs.Rc.{rc_str_bytes};
ghost use Rattle.port_rules.specs.Depends as depends;
ghost use Rattle.port_rules.specs.Depends.{AddsDepends, GivesAllDepends, GivesMoreDepends, GivesNextDepends};

use crate::asked_variables::{asked_words, package_words};
use mk_base::{Budget, FaultKind, PureStop};
use mk_env::Env;
use std::alloc::{AllocError, Global};
use std::marker::Model;
use std::rc::RcStr;

/// The kind of a dependency: what it is for (bsd.port.mk(5)).
#[derive(Clone, Copy, Debug, PartialEq, Eq)]
pub enum DependKind {
    /// To build the port (BUILD_DEPENDS).
    Build,
    /// A library that a package is linked with (LIB_DEPENDS).
    Lib,
    /// To run a package (RUN_DEPENDS).
    Run,
    /// To test the port (TEST_DEPENDS).
    Test,
}

impl DependKind {
    /// The word for the kind of a dependency: `build`, `lib`, `run` or `test`.
    pub fn as_str(self) -> &'static str
        ensures { result.now ≡ depends.word_of_kind self }
    {
        match self {
            DependKind::Build => "build",
            DependKind::Lib => "lib",
            DependKind::Run => "run",
            DependKind::Test => "test",
        }
    }
}

/// A dependency of a port, as its makefile writes it. Dependencies of one package share its name.
#[derive(Debug, Drop)]
pub struct Depend {
    kind: DependKind,
    subpackage: RcStr,
    item: String,
}

impl Model for Depend {
    ghost use Rattle.std.specs.Prelude.{string_bytes};
    ghost use Rattle.port_rules.specs.Depends.{DependValue};

    ghost Value = { DependValue };

    ghost use Rattle.std.specs.Rc.{rc_str_bytes};

    ghost view = { λ d. record { kind = d.kind; subpackage = rc_str_bytes d.subpackage; item = string_bytes d.item } };
}

impl Depend {
    /// The dependency of this kind on the item of this text, for the package of this name (empty for the port
    /// as a whole). It shares the name with the dependency before it, if that is of the same package. It
    /// fails only if memory runs out.
    pub fn new(
        alloc: Global,
        before: Option<&Depend>,
        kind: DependKind,
        subpackage: &str,
        item: String,
    ) -> Result<Depend, AllocError>
        ensures { IfOk result (λ depend. depend
            ≡ depends.make_depend kind subpackage.now (string_bytes item)) }
    {
        Ok(Depend {
            kind,
            subpackage: shared_name(alloc, before, subpackage)?,
            item,
        })
    }

    /// The kind of the dependency.
    pub fn kind(&self) -> DependKind
        ensures { result ≡ self.now.kind }
    {
        self.kind
    }

    /// The package that has the dependency, with its dash; empty if it is the port as a whole, to be built or
    /// tested.
    pub fn subpackage(&self) -> &str
        ensures { result.now ≡ self.now.subpackage }
    {
        self.subpackage.as_str()
    }

    /// The item of the dependency, not read yet.
    pub fn item(&self) -> &str
        ensures { result.now ≡ self.now.item }
    {
        self.item.as_str()
    }
}

/// The name of the package that has a dependency, shared with the dependency before it if that is of the same
/// package.
fn shared_name(
    alloc: Global,
    before: Option<&Depend>,
    subpackage: &str,
) -> Result<RcStr, AllocError>
    ensures { IfOk result (λ name. rc_str_bytes name ≡ subpackage.now) }
{
    if let Some(before) = before {
        if before.subpackage() == subpackage {
            return before.subpackage.clone();
        }
    }
    RcStr::from_str(alloc, subpackage)
}

/// The dependencies of a port with these packages, read from its variables: to be built, then of each
/// package, then to be tested.
#[tactic(auto, unfolding(crate::specs::Depends::depends_of))]
pub(crate) fn read_depends(
    alloc: Global,
    env: &Env,
    subpackages: &[String],
    budget: &mut Budget,
) -> Result<Vec<Depend>, PureStop<FaultKind>>
    ensures { GivesAllDepends result env.now subpackages.now budget.old budget.new }
{
    let build = asked_words(alloc, env, "BUILD_DEPENDS", budget)?;
    let mut found = Vec::new(alloc);
    put_depends(alloc, &mut found, DependKind::Build, "", build)?;
    let mut found = with_each(alloc, env, found, subpackages, budget)?;
    let test = asked_words(alloc, env, "TEST_DEPENDS", budget)?;
    put_depends(alloc, &mut found, DependKind::Test, "", test)?;
    Ok(found)
}

/// A port's dependencies with those of each package, read from its variables, after them.
fn with_each(
    alloc: Global,
    env: &Env,
    found: Vec<Depend>,
    subpackages: &[String],
    budget: &mut Budget,
) -> Result<Vec<Depend>, PureStop<FaultKind>>
    ensures { GivesMoreDepends result env.now found.items subpackages.now budget.old budget.new }
{
    let mut found = found;
    for subpackage in subpackages {
        found = with_depends(alloc, env, found, subpackage, budget)?;
    }
    Ok(found)
}

/// A port's dependencies with those of one package, read from its variables, after them.
#[tactic(auto, unfolding(crate::specs::Depends::add_depends))]
fn with_depends(
    alloc: Global,
    env: &Env,
    found: Vec<Depend>,
    subpackage: &str,
    budget: &mut Budget,
) -> Result<Vec<Depend>, PureStop<FaultKind>>
    ensures { GivesNextDepends result env.now found.items subpackage.now budget.old budget.new }
{
    let mut found = found;
    let lib = package_words(alloc, env, "LIB_DEPENDS", subpackage, budget)?;
    let run = package_words(alloc, env, "RUN_DEPENDS", subpackage, budget)?;
    put_depends(alloc, &mut found, DependKind::Lib, subpackage, lib)?;
    put_depends(alloc, &mut found, DependKind::Run, subpackage, run)?;
    Ok(found)
}

/// Adds dependencies of one kind, of a package or of the port as a whole, on these items.
fn put_depends(
    alloc: Global,
    found: &mut Vec<Depend>,
    kind: DependKind,
    subpackage: &str,
    items: Vec<String>,
) -> Result<(), AllocError>
    ensures { AddsDepends result found.old.items kind subpackage.now items.items found.new.items }
{
    for item in items {
        let depend = Depend::new(alloc, found.last(), kind, subpackage, item)?;
        found.push(depend)?;
    }
    Ok(())
}
