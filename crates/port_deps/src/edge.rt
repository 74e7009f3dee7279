//! Edges: the dependencies of ports, each with its status.
ghost use Rattle.std.specs.Prelude.{◌≡◌};
ghost use Rattle.std.specs.Option.{option_copied};
ghost use Rattle.port_deps.specs.Edges as edges;
ghost use Rattle.port_deps.specs.Seen.{found_seen};

use crate::item::Item;
use crate::statuses::{Found, Status, status_of};
use crate::wanted::Wanted;
use pkg_path::PkgPath;
use port_rules::DependKind;
use std::marker::Model;

/// An edge, which is a dependency of a port: an item, with the status that it gets from the port at its path.
#[derive(Debug, Drop)]
pub struct Edge {
    kind: DependKind,
    subpackage: String,
    item: String,
    target: Option<PkgPath>,
    status: Status,
}

impl Model for Edge {
    ghost use Rattle.std.specs.Prelude.{string_bytes};
    ghost use Rattle.port_deps.specs.Edges.{EdgeValue};

    ghost Value = { EdgeValue };

    ghost view = { λ e. record {
      kind = e.kind;
      subpackage = string_bytes e.subpackage;
      item = string_bytes e.item;
      target = e.target;
      status = e.status;
    } };
}

impl Edge {
    /// The kind of the edge: what the port needs the dependency for.
    pub fn kind(&self) -> DependKind
        ensures { result ≡ self.now.kind }
    {
        self.kind
    }

    /// The package of the port that has the edge, with its dash; empty if it is the port as a whole, to be
    /// built or tested.
    pub fn subpackage(&self) -> &str
        ensures { result.now ≡ self.now.subpackage }
    {
        self.subpackage.as_str()
    }

    /// The item of the edge, as it is written.
    pub fn item(&self) -> &str
        ensures { result.now ≡ self.now.item }
    {
        self.item.as_str()
    }

    /// The path that the item of the edge names, with its flavors and its subpackage; `None` if the item
    /// can't be read.
    pub fn target(&self) -> Option<&PkgPath>
        ensures { option_copied result ≡ self.now.target }
    {
        self.target.as_ref()
    }

    /// The status of the edge: whether its item is met.
    pub fn status(&self) -> Status
        ensures { result ≡ self.now.status }
    {
        self.status
    }
}

/// The edge of an item, by what is found at the item's path, with the flavors of that path.
///
/// Its status is the first that fits. It is `BadItem` if the item can't be read. It is `NoPort` if
/// nothing is found. It is `BadFlavor` if the fault is that of a flavor that isn't the port's, and
/// `Unevaluated` at any other fault. It is `NoPort` if no port is found. It is `NoSubpackage` if the
/// port doesn't have the package that the path names. It is `SpecMismatch` if the spec doesn't admit the
/// package's name. Otherwise it is `Ok`. A path that names no subpackage means `-main` if there is one,
/// and otherwise the first package.
pub fn resolve(item: Item, found: Found<'_>) -> Edge
    ensures { result ≡ edges.edge_of item (found_seen found.entry) }
{
    let status = status_of(item.wanted(), found);
    let Item {
        kind,
        subpackage,
        text,
        wanted,
    } = item;
    Edge {
        kind,
        subpackage,
        item: text,
        target: target_of(wanted),
        status,
    }
}

/// The path that the item of an edge names, if the item can be read.
fn target_of(wanted: Option<Wanted>) -> Option<PkgPath>
    ensures { result ≡ edges.wanted_path wanted }
{
    match wanted {
        Some(wanted) => Some(wanted.into_path()),
        None => None,
    }
}
