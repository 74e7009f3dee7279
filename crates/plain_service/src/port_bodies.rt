//! The bodies of replies that say what a port is, as JSON texts.
ghost use Rattle.std.specs.Prelude.{◌≡◌, OnOk, codes};
ghost use Rattle.pkg_name.specs.Name.{name_text};
ghost use Rattle.serde_json.specs.Data.{string};
ghost use Rattle.plain_service.specs.PortBody as bodies;
ghost use Rattle.plain_service.specs.JsonText.{AddsValue, AddsList, AddsMember};
ghost use Rattle.plain_service.specs.Outcomes.{WritesJson};

use crate::json_text::Scalar::Text;
use crate::json_text::{begin_members, end_members, write_object};
use json::Writer;
use pkg_path::PkgPath;
use port_rules::{Depend, Package, PortRecord};
use std::alloc::{AllocError, Global};

/// The body of the reply that says what the port is that a path names. The path's subpackage doesn't count.
/// It fails only if memory runs out.
pub fn port(alloc: Global, path: &PkgPath, port: &PortRecord) -> Result<Vec<u8>, AllocError>
    ensures { WritesJson result (bodies.port_body path.now port.now) }
{
    let flavors = port.flavors();
    let path = path.port_path(alloc)?;
    let mut out = begin_members(alloc)?;
    write_texts(&mut out, "categories", port.categories())?;
    write_depends(&mut out, port.depends())?;
    write_texts(&mut out, "flavor", flavors.chosen())?;
    write_texts(&mut out, "flavors", flavors.proper())?;
    write_text(&mut out, "maintainer", port.maintainer())?;
    write_packages(alloc, &mut out, port.packages())?;
    write_text(&mut out, "path", path.as_str())?;
    write_texts(&mut out, "pseudo", flavors.pseudo())?;
    end_members(out)
}

/// Writes a member of a port's JSON text that is a text.
fn write_text(out: &mut Writer, name: &str, text: &str) -> Result<(), AllocError>
    ensures { OnOk result (AddsMember out.old out.new name.now (string text.now)) }
{
    out.key(name)?;
    out.string(text)
}

/// Writes a member of a port's JSON text that is a list of texts.
fn write_texts(out: &mut Writer, name: &str, texts: &[String]) -> Result<(), AllocError>
    ensures { OnOk result (AddsMember out.old out.new name.now (bodies.strings_body texts.now)) }
{
    out.key(name)?;
    out.begin_array()?;
    for text in texts {
        out.string(text)?;
    }
    out.end_array()
}

/// Writes the packages of a port into its JSON text.
fn write_packages(alloc: Global, out: &mut Writer, packages: &[Package]) -> Result<(), AllocError>
    ensures { AddsList result out.old (codes "packages") bodies.package_body packages.now out.new }
{
    out.key("packages")?;
    out.begin_array()?;
    for one in packages {
        write_package(alloc, out, one)?;
    }
    out.end_array()
}

/// Writes one package of a port into its JSON text.
fn write_package(alloc: Global, out: &mut Writer, one: &Package) -> Result<(), AllocError>
    ensures { OnOk result (AddsValue out.old out.new (bodies.package_body one.now)) }
{
    let name = one.name().text(alloc)?;
    write_named(out, one, name.as_str())
}

/// Writes one package of a port into its JSON text, given the package's full name.
fn write_named<'a>(out: &mut Writer, one: &'a Package, name: &'a str) -> Result<(), AllocError>
    requires { name.now ≡ name_text one.now.name }
    ensures { OnOk result (AddsValue out.old out.new (bodies.package_body one.now)) }
{
    write_object(
        out,
        &[
            ("comment", Text(one.comment())),
            ("name", Text(name)),
            ("subpackage", Text(one.subpackage())),
        ],
    )
}

/// Writes the dependencies of a port into its JSON text.
fn write_depends(out: &mut Writer, depends: &[Depend]) -> Result<(), AllocError>
    ensures { AddsList result out.old (codes "depends") bodies.depend_body depends.now out.new }
{
    out.key("depends")?;
    out.begin_array()?;
    for one in depends {
        write_depend(out, one)?;
    }
    out.end_array()
}

/// Writes one dependency of a port into its JSON text.
fn write_depend(out: &mut Writer, one: &Depend) -> Result<(), AllocError>
    ensures { OnOk result (AddsValue out.old out.new (bodies.depend_body one.now)) }
{
    write_object(
        out,
        &[
            ("item", Text(one.item())),
            ("kind", Text(one.kind().as_str())),
            ("subpackage", Text(one.subpackage())),
        ],
    )
}
