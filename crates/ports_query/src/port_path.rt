//! The paths of ports as texts, for questions about dependencies.
ghost use Rattle.std.specs.Prelude.{◌≡◌, IfOk};
ghost use Rattle.pkg_path.specs.Paths.{port_path};
ghost use Rattle.ports_query.specs.Paths as paths;

use pkg_path::PkgPath;
use std::alloc::{AllocError, Global};

/// The path of a port as a text. A path without flavors is the text of its directory, which is lent.
#[derive(Drop)]
pub(crate) enum PortPath<'a> {
    /// Without flavors.
    Plain(&'a str),
    /// The text of one with flavors.
    Flavored(String),
}

impl<'a> PortPath<'a> {
    /// The path, without subpackage, of the port that a path names, as a text.
    pub(crate) fn of(alloc: Global, target: &'a PkgPath) -> Result<PortPath<'a>, AllocError>
        ensures { IfOk result (λ path. paths.path_seen path ≡ port_path target.now) }
    {
        if target.flavors().is_none() {
            return Ok(PortPath::Plain(target.directory()));
        }
        Ok(PortPath::Flavored(target.port_path(alloc)?))
    }

    /// The text of the port's path.
    pub(crate) fn text(&self) -> &str
        ensures { result.now ≡ paths.path_seen self.now }
    {
        match self {
            PortPath::Plain(text) => text,
            PortPath::Flavored(text) => text.as_str(),
        }
    }
}
