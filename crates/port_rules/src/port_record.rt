//! The record of a port: what the port is, read from its variables.
ghost use Rattle.std.specs.Prelude.{◌≡◌, map, string_bytes};
ghost use Rattle.mk_base.specs.Stops.{GivesPurely};
ghost use Rattle.port_rules.specs.Ports as ports;
ghost use Rattle.port_rules.specs.Ports.{MakesPort};

use crate::asked_variables::{asked_text, asked_words};
use crate::depends::{Depend, read_depends};
use crate::flavors::{PortFlavors, read_flavors};
use crate::packages::{Package, read_packages, read_subpackages};
use mk_base::{Budget, FaultKind, PureStop};
use mk_env::Env;
use std::alloc::{AllocError, Global};
use std::marker::Model;

/// What a port is, as its variables say (bsd.port.mk(5)). A record never changes. Clauses see what it says.
#[derive(Debug, Drop)]
pub struct PortRecord {
    port: Box<Port>,
}

/// What the record of a port says.
#[derive(Debug, Drop)]
struct Port {
    flavors: PortFlavors,
    maintainer: String,
    categories: Vec<String>,
    packages: Vec<Package>,
    depends: Vec<Depend>,
}

impl Model for PortRecord {
    ghost use Rattle.std.specs.Prelude.{map, string_bytes};
    ghost use Rattle.port_rules.specs.Ports.{PortValue};

    ghost Value = { PortValue };

    ghost view = { λ p. record {
      flavors = p.port.value.flavors;
      maintainer = string_bytes p.port.value.maintainer;
      categories = map string_bytes p.port.value.categories.items;
      packages = p.port.value.packages.items;
      depends = p.port.value.depends.items;
    } };
}

impl PortRecord {
    /// The record of a port of these flavors, with its maintainer, its categories, its packages and its
    /// dependencies. It fails only if memory runs out.
    pub fn new(
        alloc: Global,
        flavors: PortFlavors,
        maintainer: String,
        categories: Vec<String>,
        packages: Vec<Package>,
        depends: Vec<Depend>,
    ) -> Result<PortRecord, AllocError>
        ensures { MakesPort result flavors maintainer categories packages depends }
    {
        let port = Port {
            flavors,
            maintainer,
            categories,
            packages,
            depends,
        };
        Ok(PortRecord {
            port: Box::new(alloc, port)?,
        })
    }

    /// The flavors in the record of a port.
    pub fn flavors(&self) -> &PortFlavors
        ensures { result.now ≡ self.now.flavors }
    {
        &self.port.flavors
    }

    /// The maintainer in the record of a port (MAINTAINER); empty if that isn't given.
    pub fn maintainer(&self) -> &str
        ensures { result.now ≡ self.now.maintainer }
    {
        self.port.maintainer.as_str()
    }

    /// The categories in the record of a port (CATEGORIES), in order.
    pub fn categories(&self) -> &[String]
        ensures { map string_bytes result.now ≡ self.now.categories }
    {
        self.port.categories.as_slice()
    }

    /// The packages in the record of a port, in the order of MULTI_PACKAGES; at least one.
    pub fn packages(&self) -> &[Package]
        ensures { result.now ≡ self.now.packages }
    {
        self.port.packages.as_slice()
    }

    /// Whether the port of the record has a package of this name, which has its dash, such as `-main`.
    pub fn has_package(&self, subpackage: &str) -> bool
        ensures { result ≡ ports.has_package self.now subpackage.now }
    {
        let packages = self.port.packages.as_slice();
        packages
            .iter()
            .any(|package| package.subpackage() == subpackage)
    }

    /// The dependencies in the record of a port: to be built; then, for each package, what the package is
    /// linked with and what it needs to run; then to be tested.
    pub fn depends(&self) -> &[Depend]
        ensures { result.now ≡ self.now.depends }
    {
        self.port.depends.as_slice()
    }
}

/// The record of the port that these variables make, in the budget that is given.
#[tactic(auto, unfolding(crate::specs::Ports::port_of))]
pub(crate) fn read_port(
    alloc: Global,
    env: &Env,
    budget: &mut Budget,
) -> Result<PortRecord, PureStop<FaultKind>>
    ensures { GivesPurely (λ x. x) result budget.new (ports.port_of env.now budget.old) }
{
    let flavors = read_flavors(alloc, env, budget)?;
    let subpackages = read_subpackages(alloc, env, budget)?;
    let maintainer = asked_text(alloc, env, "MAINTAINER", budget)?;
    let categories = asked_words(alloc, env, "CATEGORIES", budget)?;
    let packages = read_packages(alloc, env, &flavors, &subpackages, budget)?;
    let depends = read_depends(alloc, env, &subpackages, budget)?;
    Ok(PortRecord::new(alloc, flavors, maintainer, categories, packages, depends)?)
}
