//! The statuses of edges: whether what an item asks for is there.
ghost use Rattle.std.specs.Prelude.{◌≡◌, find};
ghost use Rattle.std.specs.Option.{option_copied};
ghost use Rattle.std.specs.Str.{bytes_eq};
ghost use Rattle.port_deps.specs.Statuses as statuses;
ghost use Rattle.port_deps.specs.Seen.{found_seen};
ghost use Rattle.port_rules.specs.Packages.{PackageValue};

use crate::wanted::Wanted;
use mk_base::FaultKind;
use port_rules::{Package, PortRecord};

/// What the makefile that a path names is found to be, evaluated with the flavors of the path.
#[derive(Clone, Copy, Debug)]
pub enum Found<'a> {
    /// There is none.
    NotThere,
    /// Its evaluation, or the record of its port, has a fault of this kind.
    Faulted(FaultKind),
    /// It describes no port.
    NotPort,
    /// It describes this port.
    Port(&'a PortRecord),
}

/// The status of an edge: whether its item is met by the port that the item's path names.
#[derive(Clone, Copy, Debug, PartialEq, Eq)]
pub enum Status {
    /// The item can't be read.
    BadItem,
    /// There is no port at its path.
    NoPort,
    /// The port has no such flavor.
    BadFlavor,
    /// The port's makefile has another fault.
    Unevaluated,
    /// The port has no such subpackage.
    NoSubpackage,
    /// The package isn't one that the spec admits.
    SpecMismatch,
    /// The package will do.
    Ok,
}

impl Status {
    /// The word for the status of an edge: the name of the variant.
    pub fn as_str(self) -> &'static str
        ensures { result.now ≡ statuses.word_of_status self }
    {
        match self {
            Status::BadItem => "BadItem",
            Status::NoPort => "NoPort",
            Status::BadFlavor => "BadFlavor",
            Status::Unevaluated => "Unevaluated",
            Status::NoSubpackage => "NoSubpackage",
            Status::SpecMismatch => "SpecMismatch",
            Status::Ok => "Ok",
        }
    }
}

/// The status of an item by what is found at the item's path; `None` is an item that can't be read.
pub(crate) fn status_of(wanted: Option<&Wanted>, found: Found<'_>) -> Status
    ensures { result ≡ statuses.status_of (option_copied wanted.entry) (found_seen found.entry) }
{
    let Some(wanted) = wanted else {
        return Status::BadItem;
    };
    match found {
        Found::NotThere | Found::NotPort => Status::NoPort,
        Found::Faulted(FaultKind::Flavor) => Status::BadFlavor,
        Found::Faulted(_) => Status::Unevaluated,
        Found::Port(port) => status_at(wanted, port),
    }
}

/// The status of an item whose path names this port.
fn status_at(wanted: &Wanted, port: &PortRecord) -> Status
    ensures { result ≡ statuses.status_at wanted.now port.now }
{
    match package_meant(port, wanted.path().subpackage()) {
        Some(package) if wanted.admits(package.name()) => Status::Ok,
        Some(_) => Status::SpecMismatch,
        None => Status::NoSubpackage,
    }
}

/// The package of a port that an item's path with this subpackage, or with none, means.
fn package_meant<'a>(port: &'a PortRecord, subpackage: Option<&str>) -> Option<&'a Package>
    ensures { option_copied result
        ≡ statuses.package_meant port.now (option_copied subpackage.entry) }
{
    let packages = port.packages();
    if let Some(name) = subpackage {
        return package_named(packages, name);
    }
    match package_named(packages, "-main") {
        Some(package) => Some(package),
        None => packages.first(),
    }
}

/// The package of a port that has this name, with its dash.
fn package_named<'a>(packages: &'a [Package], name: &str) -> Option<&'a Package>
    ensures { option_copied result
        ≡ find (λ (found : PackageValue). bytes_eq found.subpackage name.now) packages.now }
{
    packages.iter().find(|package| package.subpackage() == name)
}
