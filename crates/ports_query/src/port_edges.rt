//! The edges of one port, and the edges that lead to one port, out of all edges of a ports tree.
ghost use Rattle.std.specs.Prelude.{◌≡◌};
ghost use Rattle.std.specs.Option.{option_copied};
ghost use Rattle.ports_query.specs.Edges as selection;
ghost use Rattle.ports_query.specs.Edges.{LendsEdges, is_edge_to, is_first_edge, names_it};
ghost use Rattle.ports_query.specs.Candidate.{TellsIf};

use crate::kinds::Kinds;
use crate::port_path::PortPath;
use pkg_path::PkgPath;
use port_deps::{Edge, RootEdge};
use port_rules::DependKind;
use std::alloc::{AllocError, Global};

/// The edges of these kinds that the port at a path has, in their order. If the path names a subpackage,
/// these are the subpackage's own and those of the port as a whole, to be built and tested. It fails only if
/// memory runs out.
pub fn first_edges<'a>(
    alloc: Global,
    kinds: Kinds,
    path: &PkgPath,
    edges: &'a [RootEdge],
) -> Result<Vec<&'a RootEdge>, AllocError>
    ensures { LendsEdges result (selection.first_edges_of kinds path.now edges.now) }
{
    let root = path.port_path(alloc)?;
    let mut found = Vec::new(alloc);
    for edge in edges {
        if is_first(kinds, root.as_str(), path.subpackage(), edge) {
            found.push(edge)?;
        }
    }
    Ok(found)
}

/// The edges of these kinds, of whatever status, that lead to the port that a path names, in their order. If
/// the path names a subpackage, these are the ones whose item names it, too. It fails only if memory runs
/// out.
pub fn edges_to<'a>(
    alloc: Global,
    kinds: Kinds,
    path: &PkgPath,
    edges: &'a [RootEdge],
) -> Result<Vec<&'a RootEdge>, AllocError>
    ensures { LendsEdges result (selection.edges_to_of kinds path.now edges.now) }
{
    let root = path.port_path(alloc)?;
    let mut found = Vec::new(alloc);
    for edge in edges {
        if leads_to(alloc, kinds, root.as_str(), path.subpackage(), edge)? {
            found.push(edge)?;
        }
    }
    Ok(found)
}

/// Whether an edge is of these kinds and of a port, and of its subpackage if one is named.
fn is_first(kinds: Kinds, root: &str, subpackage: Option<&str>, edge: &RootEdge) -> bool
    ensures { result ≡ is_first_edge kinds root.now (option_copied subpackage.entry) edge.now }
{
    kinds.have(edge.edge().kind()) && edge.root() == root && keeps(subpackage, edge.edge())
}

/// Whether an edge is kept that is asked for with a subpackage. If none is named, each edge is.
fn keeps(subpackage: Option<&str>, edge: &Edge) -> bool
    ensures { result ≡ selection.keeps (option_copied subpackage.entry) edge.now }
{
    match subpackage {
        Some(name) => is_of_port(edge.kind()) || edge.subpackage() == name,
        None => true,
    }
}

/// Whether edges of this kind are of the port as a whole, and not of one package.
fn is_of_port(kind: DependKind) -> bool
    ensures { result ≡ selection.is_of_port kind }
{
    matches!(kind, DependKind::Build | DependKind::Test)
}

/// Whether an edge is of these kinds and leads to a port, and to its subpackage if one is named.
fn leads_to(
    alloc: Global,
    kinds: Kinds,
    root: &str,
    subpackage: Option<&str>,
    edge: &RootEdge,
) -> Result<bool, AllocError>
    ensures { TellsIf result (is_edge_to kinds root.now (option_copied subpackage.entry) edge.now) }
{
    if !kinds.have(edge.edge().kind()) {
        return Ok(false);
    }
    let Some(target) = edge.edge().target() else {
        return Ok(false);
    };
    let target_root = PortPath::of(alloc, target)?;
    Ok(target_root.text() == root && names_it(subpackage, target.subpackage()))
}

/// Whether the target of an edge names the subpackage that is asked for, if one is.
fn names_it(subpackage: Option<&str>, named: Option<&str>) -> bool
    ensures { result ≡ names_it (option_copied subpackage.entry) (option_copied named.entry) }
{
    match (subpackage, named) {
        (None, _) => true,
        (Some(_), None) => false,
        (Some(subpackage), Some(named)) => named == subpackage,
    }
}
