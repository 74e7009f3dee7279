//! The bodies of replies that are lists, of packages, dependencies or faults, as JSON texts.
ghost use Rattle.std.specs.Prelude.{◌≡◌, OnOk, map, string_bytes, option_to_list};
ghost use Rattle.std.specs.Option.{option_copied};
ghost use Rattle.ports_query.specs.Edges.{edges_lent};
ghost use Rattle.plain_service.specs.ListBodies as bodies;
ghost use Rattle.plain_service.specs.JsonText.{AddsValue, AddsItems};
ghost use Rattle.plain_service.specs.Outcomes.{IfTextMade, WritesJson};

use crate::json_text::Scalar::{Number, Text};
use crate::json_text::{begin_list, end_list, write_object};
use json::Writer;
use mk_base::Fault;
use pkg_path::PkgPath;
use port_deps::{Edge, Root, RootEdge};
use ports_query::Listed;
use std::alloc::{AllocError, Global};

/// The body of a reply that lists these packages. It fails only if memory runs out.
pub fn packages(alloc: Global, packages: &[Listed<'_>]) -> Result<Vec<u8>, AllocError>
    ensures { WritesJson result (bodies.packages_body packages.now) }
{
    let mut out = begin_list(alloc, "packages")?;
    for one in packages {
        listed(alloc, &mut out, one)?;
    }
    end_list(out)
}

/// Writes one package of a body that lists packages.
fn listed(alloc: Global, out: &mut Writer, one: &Listed<'_>) -> Result<(), AllocError>
    ensures { OnOk result (AddsValue out.old out.new (bodies.listed_body one.now)) }
{
    let name = one.name().text(alloc)?;
    listed_as(out, name.as_str(), one.path(), one.subpackage())
}

/// Writes one package of a body that lists packages, given its texts.
fn listed_as<'a>(
    out: &mut Writer,
    name: &'a str,
    path: &'a str,
    subpackage: &'a str,
) -> Result<(), AllocError>
    ensures { OnOk result (AddsValue out.old out.new (bodies.listing name.now path.now subpackage.now)) }
{
    write_object(
        out,
        &[
            ("name", Text(name)),
            ("path", Text(path)),
            ("subpackage", Text(subpackage)),
        ],
    )
}

/// The body of a reply that lists what a port depends on: each dependency. It fails only if memory runs out.
pub fn dependencies(alloc: Global, edges: &[&RootEdge]) -> Result<Vec<u8>, AllocError>
    ensures { WritesJson result (bodies.dependencies_body (edges_lent edges.now)) }
{
    let mut out = begin_list(alloc, "deps")?;
    for edge in edges {
        dependency(alloc, &mut out, edge.edge())?;
    }
    end_list(out)
}

/// Writes one dependency of a body that lists what a port depends on.
fn dependency(alloc: Global, out: &mut Writer, edge: &Edge) -> Result<(), AllocError>
    ensures { OnOk result (AddsValue out.old out.new (bodies.dependency_body edge.now)) }
{
    let target = target_text(alloc, edge.target())?;
    dependency_on(out, edge, target.as_str())
}

/// Writes one dependency of a body that lists what a port depends on, given the path that its item names.
fn dependency_on<'a>(out: &mut Writer, edge: &'a Edge, target: &'a str) -> Result<(), AllocError>
    requires { target.now ≡ bodies.target_text edge.now.target }
    ensures { OnOk result (AddsValue out.old out.new (bodies.dependency_body edge.now)) }
{
    write_object(
        out,
        &[
            ("item", Text(edge.item())),
            ("kind", Text(edge.kind().as_str())),
            ("status", Text(edge.status().as_str())),
            ("subpackage", Text(edge.subpackage())),
            ("target", Text(target)),
        ],
    )
}

/// The path that the item of a listed dependency names. It is empty if the item can't be read.
fn target_text(alloc: Global, target: Option<&PkgPath>) -> Result<String, AllocError>
    ensures { IfTextMade result (bodies.target_text (option_copied target.entry)) }
{
    match target {
        Some(path) => path.canonical(alloc),
        None => Ok(String::new(alloc)),
    }
}

/// The body of a reply that lists what depends on a port: each dependency, with the path of its port. It
/// fails only if memory runs out.
pub fn dependents(alloc: Global, edges: &[&RootEdge]) -> Result<Vec<u8>, AllocError>
    ensures { WritesJson result (bodies.dependents_body (edges_lent edges.now)) }
{
    let mut out = begin_list(alloc, "rdeps")?;
    for edge in edges {
        dependent(&mut out, edge.root(), edge.edge())?;
    }
    end_list(out)
}

/// Writes one dependency, with the path of its port, of a body that lists what depends on a port.
fn dependent<'a>(out: &mut Writer, root: &'a str, edge: &'a Edge) -> Result<(), AllocError>
    ensures { OnOk result (AddsValue out.old out.new (bodies.dependent_of root.now edge.now)) }
{
    write_object(
        out,
        &[
            ("item", Text(edge.item())),
            ("kind", Text(edge.kind().as_str())),
            ("path", Text(root)),
            ("status", Text(edge.status().as_str())),
            ("subpackage", Text(edge.subpackage())),
        ],
    )
}

/// The body of a reply that lists the paths of ports that are reached. It fails only if memory runs out.
pub fn reached(alloc: Global, paths: &[String]) -> Result<Vec<u8>, AllocError>
    ensures { WritesJson result (bodies.reached_body (map string_bytes paths.now)) }
{
    texts(alloc, "deps", paths)
}

/// The body of a reply that lists the paths of ports that reach one. It fails only if memory runs out.
pub fn reaching(alloc: Global, paths: &[String]) -> Result<Vec<u8>, AllocError>
    ensures { WritesJson result (bodies.reaching_body (map string_bytes paths.now)) }
{
    texts(alloc, "rdeps", paths)
}

/// The body of a reply that lists these texts, under this name.
fn texts(alloc: Global, name: &str, texts: &[String]) -> Result<Vec<u8>, AllocError>
    ensures { WritesJson result (bodies.texts_list name.now (map string_bytes texts.now)) }
{
    let mut out = begin_list(alloc, name)?;
    for text in texts {
        out.string(text)?;
    }
    end_list(out)
}

/// The body of a reply that lists the faults at these roots. A root without a fault adds nothing. It fails
/// only if memory runs out.
pub fn faults(alloc: Global, roots: &[Root<'_>]) -> Result<Vec<u8>, AllocError>
    ensures { WritesJson result (bodies.faults_body roots.now) }
{
    let mut out = begin_list(alloc, "faults")?;
    for root in roots {
        add_fault(&mut out, root)?;
    }
    end_list(out)
}

/// Writes the fault of a root into a body that lists faults, if the root has one.
fn add_fault(out: &mut Writer, root: &Root<'_>) -> Result<(), AllocError>
    ensures { OnOk result (AddsItems out.old out.new (option_to_list (bodies.root_fault_body root.now))) }
{
    match root.state() {
        Ok(_port) => Ok(()),
        Err(fault) => fault_at(out, root.path(), fault),
    }
}

/// Writes a fault and the path where it is into a body that lists faults.
fn fault_at<'a>(out: &mut Writer, path: &'a str, fault: &'a Fault) -> Result<(), AllocError>
    ensures { OnOk result (AddsValue out.old out.new (bodies.fault_at_body path.now fault.now)) }
{
    write_object(
        out,
        &[
            ("kind", Number(u64::from(fault.kind().number()))),
            ("line", Number(fault.line())),
            ("name", Text(fault.name())),
            ("path", Text(path)),
        ],
    )
}
