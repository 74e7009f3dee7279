//! What an item asks for: the path of a port, and the packages of it that will do.
ghost use Rattle.std.specs.Prelude.{◌≡◌};
ghost use Rattle.pkg_spec.specs.NameSet.{admitted_by};
ghost use Rattle.port_deps.specs.ItemText.{spec_or_any};

use pkg_name::PkgName;
use pkg_path::PkgPath;
use pkg_spec::Spec;
use std::marker::Model;

/// What an item asks for: the path of a port, and the packages of that port that will do.
#[derive(Debug, Drop)]
pub struct Wanted {
    path: PkgPath,
    /// A spec of these packages. Without one any package will do.
    spec: Option<Spec>,
}

impl Model for Wanted {
    ghost use Rattle.port_deps.specs.Items.{WantedValue};
    ghost use Rattle.port_deps.specs.ItemText.{spec_or_any};

    ghost Value = { WantedValue };

    ghost view = { λ w. record { path = w.path; spec = spec_or_any w.spec } };
}

impl Wanted {
    /// What an item asks for by this path, and by a spec of the packages, if it has one.
    pub(crate) fn new(path: PkgPath, spec: Option<Spec>) -> Wanted
        ensures { result ≡ record { path = path; spec = spec_or_any spec } }
    {
        Wanted { path, spec }
    }

    /// The path of the port that the item asks for, with its flavors and its subpackage.
    pub fn path(&self) -> &PkgPath
        ensures { result.now ≡ self.now.path }
    {
        &self.path
    }

    /// Takes out the path of the port that the item asks for.
    pub(crate) fn into_path(self) -> PkgPath
        ensures { result ≡ self.path }
    {
        self.path
    }

    /// The text of a spec of the packages that will do for the item: `STEM-*`, which admits any, if the item
    /// has none.
    pub fn spec_text(&self) -> &str
        ensures { result.now ≡ self.now.spec }
    {
        match &self.spec {
            Some(spec) => spec.as_str(),
            None => "STEM-*",
        }
    }

    /// Whether a package of this name will do for the item.
    pub fn admits(&self, name: &PkgName) -> bool
        ensures { result ≡ admitted_by self.now.spec name.now }
    {
        match &self.spec {
            Some(spec) => spec.matches(name),
            None => true,
        }
    }
}
