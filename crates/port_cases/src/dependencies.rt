//! Cases of dependencies: items, what meets them, and questions about lists of ports.
use case_lines::{Answer, Trouble, as_text, one_text};
use make_cases::{World, evaluated, makefile};
use mk_base::FaultKind;
use pkg_path::PkgPath;
use pkg_spec::{Spec, SpecFault};
use plain_reference::index_files;
use port_deps::{Found, Item, Root, RootEdge, items, resolve};
use port_rules::{PortRecord, record};
use ports_query::{
    Kinds, Listed, Query, QueryFault, admitted, answer, edges_to, first_edges, reached, reaching,
};
use std::alloc::{AllocError, Global};
use text_cases::{add_texts, path_of};

/// The path at which the makefile's port is in cases of dependencies.
const ROOT: &str = "a/b";

/// The call `index` of a case of dependencies: the roots of the world, each with its path and whether a fault
/// is met there, and then each item of a root with its status.
pub fn index(alloc: Global, world: &mut World) -> Result<Answer, Trouble> {
    let index = index_files(alloc, &mut world.files, &world.settings)?.known;
    let mut answer = Answer::new(alloc);
    for root in &index.roots(alloc)? {
        answer.text(root.path().as_bytes());
        if root.state().is_err() {
            answer.word("fault");
        }
    }
    for edge in &index.make_edges(alloc)? {
        answer.word(edge.root());
        answer.text(edge.edge().item().as_bytes());
        answer.word(edge.edge().status().as_str());
    }
    Ok(answer)
}

/// The call `items` of a case of dependencies: the items of the makefile's port, each with its kind, its
/// package, its path and its spec, or `BadItem`.
pub fn items_answer(alloc: Global, world: &mut World) -> Result<Answer, Trouble> {
    let mut answer = Answer::new(alloc);
    for item in &items(alloc, &port(alloc, world)?)? {
        add_item(alloc, &mut answer, item)?;
    }
    Ok(answer)
}

/// Adds to the answer of a case of dependencies an item with its kind, its package, its path and its spec, or
/// `BadItem`.
fn add_item(alloc: Global, answer: &mut Answer, item: &Item) -> Result<(), Trouble> {
    answer.word(item.kind().as_str());
    answer.text(item.subpackage().as_bytes());
    match item.wanted() {
        Some(wanted) => {
            answer.text(wanted.path().canonical(alloc)?.as_bytes());
            answer.text(wanted.spec_text().as_bytes());
        }
        None => answer.word("BadItem"),
    }
    Ok(())
}

/// The call `statuses WHAT` of a case of dependencies: the statuses of the items of the makefile's port, if
/// each path leads to this. WHAT is `absent`, `flavor` (a fault of a flavor), `fault` (another), `other` (no
/// port), or `port` (that port itself).
pub fn statuses(alloc: Global, world: &mut World, given: &[Vec<u8>]) -> Result<Answer, Trouble> {
    let what = one_text(given)?;
    let port = port(alloc, world)?;
    match found_there(what, &port) {
        Some(found) => statuses_answer(alloc, &port, found),
        None => Err(Trouble::NoCase),
    }
}

/// The statuses of a port's items in a case of dependencies, if each path leads to this.
fn statuses_answer(alloc: Global, port: &PortRecord, found: Found<'_>) -> Result<Answer, Trouble> {
    let mut answer = Answer::new(alloc);
    for item in items(alloc, port)? {
        answer.word(resolve(item, found).status().as_str());
    }
    Ok(answer)
}

/// What the paths of all items lead to in a case of dependencies, by the word that the case gives.
fn found_there<'a>(what: &str, port: &'a PortRecord) -> Option<Found<'a>> {
    match what {
        "absent" => Some(Found::NotThere),
        "flavor" => Some(Found::Faulted(FaultKind::Flavor)),
        "fault" => Some(Found::Faulted(FaultKind::Line)),
        "other" => Some(Found::NotPort),
        "port" => Some(Found::Port(port)),
        _ => None,
    }
}

/// Questions of a case of dependencies about the items of the makefile's port at `a/b`, each of whose paths
/// leads to that port. `first KIND PATH`: the items that the path has. `to KIND PATH`: the items that lead to
/// the path. `reached KIND PATH`, `reaching KIND PATH`: the paths that are reached from it over these items,
/// or that reach it.
pub fn over_edges(
    alloc: Global,
    world: &mut World,
    what: &str,
    given: &[Vec<u8>],
) -> Result<Answer, Trouble> {
    let [kinds, path] = given else {
        return Err(Trouble::NoCase);
    };
    let kinds = Kinds::read(as_text(kinds)?).ok_or(Trouble::NoCase)?;
    let path = path_of(alloc, as_text(path)?)?;
    edges_answer(alloc, what, kinds, &path, &edges(alloc, world)?)
}

/// The answer of a case of dependencies about these edges: `first`, `to`, `reached` or `reaching`.
fn edges_answer(
    alloc: Global,
    what: &str,
    kinds: Kinds,
    path: &PkgPath,
    edges: &[RootEdge],
) -> Result<Answer, Trouble> {
    Ok(match what {
        "first" => items_of(alloc, &first_edges(alloc, kinds, path, edges)?),
        "to" => items_of(alloc, &edges_to(alloc, kinds, path, edges)?),
        "reached" => texts_answer(alloc, &reached(alloc, kinds, path, edges)?),
        _ => texts_answer(alloc, &reaching(alloc, kinds, path, edges)?),
    })
}

/// The call `list WHERE` of a case of dependencies: the names of the makefile's packages that meet the
/// conditions, or `BadQuery`.
pub fn listed(alloc: Global, world: &mut World, given: &[Vec<u8>]) -> Result<Answer, Trouble> {
    match Query::read(alloc, one_text(given)?) {
        Ok(query) => {
            let port = port(alloc, world)?;
            let packages = answer(alloc, &query, &[Root::new(ROOT, Ok(&port))])?;
            Ok(packages_answer(alloc, &packages))
        }
        Err(QueryFault::BadQuery) => Ok(Answer::of_word(alloc, "BadQuery")),
        Err(QueryFault::Memory(refused)) => Err(Trouble::Memory(refused)),
    }
}

/// The call `match SPEC` of a case of dependencies: the names of the makefile's packages that the spec
/// admits, or `BadSpec`.
pub fn matched(alloc: Global, world: &mut World, given: &[Vec<u8>]) -> Result<Answer, Trouble> {
    match Spec::read(alloc, one_text(given)?) {
        Ok(spec) => {
            let port = port(alloc, world)?;
            let packages = admitted(alloc, &spec, &[Root::new(ROOT, Ok(&port))])?;
            Ok(packages_answer(alloc, &packages))
        }
        Err(SpecFault::Memory(refused)) => Err(Trouble::Memory(refused)),
        Err(_) => Ok(Answer::of_word(alloc, "BadSpec")),
    }
}

/// Shows in a case of dependencies the packages of a list of ports: each with its path, its subpackage and
/// its name.
fn packages_answer(alloc: Global, packages: &[Listed<'_>]) -> Answer {
    let mut answer = Answer::new(alloc);
    for package in packages {
        answer.text(package.path().as_bytes());
        answer.text(package.subpackage().as_bytes());
        answer.printed(alloc, package.name());
    }
    answer
}

/// The makefile's port, which cases of dependencies are about.
fn port(alloc: Global, world: &mut World) -> Result<PortRecord, Trouble> {
    match evaluated(alloc, world)? {
        Ok(evaluated) => match record(alloc, &evaluated, &makefile(alloc)?) {
            Ok(recorded) => Ok(recorded.port),
            Err(_) => Err(Trouble::NoCase),
        },
        Err(_) => Err(Trouble::NoCase),
    }
}

/// The edges of the makefile's port in a case of dependencies, each of which leads to that port.
fn edges(alloc: Global, world: &mut World) -> Result<Vec<RootEdge>, Trouble> {
    let port = port(alloc, world)?;
    let mut edges = Vec::new(alloc);
    for item in items(alloc, &port)? {
        edges.push(edge(alloc, item, &port)?)?;
    }
    Ok(edges)
}

/// The edge of an item in a case of dependencies, if its path leads to this port.
fn edge(alloc: Global, item: Item, port: &PortRecord) -> Result<RootEdge, AllocError> {
    let edge = resolve(item, Found::Port(port));
    Ok(RootEdge::new(String::from_str(alloc, ROOT)?, edge))
}

/// The items of these edges as the answer of a case of dependencies.
fn items_of(alloc: Global, edges: &[&RootEdge]) -> Answer {
    let mut answer = Answer::new(alloc);
    for edge in edges {
        answer.text(edge.edge().item().as_bytes());
    }
    answer
}

/// These paths as the answer of a case of dependencies.
fn texts_answer(alloc: Global, texts: &[String]) -> Answer {
    let mut answer = Answer::new(alloc);
    add_texts(&mut answer, texts);
    answer
}
