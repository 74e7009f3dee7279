//! The ports that a port reaches over dependencies that are met, and the ports that reach it.
ghost use Rattle.std.specs.Prelude.{◌≡◌, IfOk, map};
ghost use Rattle.text_graph.specs.Arrows.{arrows_seen};
ghost use Rattle.text_graph.specs.Listed.{reached_list, reaching_list};
ghost use Rattle.ports_query.specs.Edges.{edges_lent};
ghost use Rattle.ports_query.specs.Reach as the_reach;
ghost use Rattle.ports_query.specs.Reach.{GivesPorts, GivesStep, GivesSteps, AddsStep, step_seen};

use crate::kinds::Kinds;
use crate::port_edges::first_edges;
use crate::port_path::PortPath;
use pkg_path::PkgPath;
use port_deps::{RootEdge, Status};
use std::alloc::{AllocError, Global};
use text_graph::Arrow;
use text_parts::copies_of;

/// The ports that are reached from a path over one or more dependencies of these kinds whose status is
/// `Ok`. The first of these dependencies is one that the path has (`first_edges`), and each other one
/// begins where the one before it ended.
///
/// The ports are given by their canonical paths without subpackages, in the order of the paths' bytes, each
/// once. It fails only if memory runs out.
pub fn reached(
    alloc: Global,
    kinds: Kinds,
    path: &PkgPath,
    edges: &[RootEdge],
) -> Result<Vec<String>, AllocError>
    ensures { GivesPorts result (the_reach.reached_from kinds path.now edges.now) }
{
    let found = first_edges(alloc, kinds, path, edges)?;
    let first = steps_over_some(alloc, kinds, &found)?;
    let steps = steps_over(alloc, kinds, edges)?;
    reached_over(alloc, &first, &steps)
}

/// The ports that are reached over steps: the ends of the ways whose first step is one of `first`.
fn reached_over(
    alloc: Global,
    first: &[Step<'_>],
    steps: &[Step<'_>],
) -> Result<Vec<String>, AllocError>
    ensures { GivesPorts result (reached_list (map step_seen first.now) (map step_seen steps.now)) }
{
    let first_arrows = arrows_over(alloc, first)?;
    let arrows = arrows_over(alloc, steps)?;
    let paths = text_graph::reached(alloc, &first_arrows, &arrows)?;
    copies_of(alloc, &paths)
}

/// The ports that reach the port that a path names, over one or more dependencies of these kinds whose
/// status is `Ok`. Each of these dependencies but the first begins where the one before it ended. A
/// subpackage of the path is ignored.
///
/// The ports are given by their canonical paths without subpackages, in the order of the paths' bytes, each
/// once. It fails only if memory runs out.
pub fn reaching(
    alloc: Global,
    kinds: Kinds,
    path: &PkgPath,
    edges: &[RootEdge],
) -> Result<Vec<String>, AllocError>
    ensures { GivesPorts result (the_reach.reaching_of kinds path.now edges.now) }
{
    let goal = path.port_path(alloc)?;
    let steps = steps_over(alloc, kinds, edges)?;
    reaching_over(alloc, &steps, goal.as_str())
}

/// The ports that reach a path over steps: the starts of the ways that end at that path.
fn reaching_over(alloc: Global, steps: &[Step<'_>], goal: &str) -> Result<Vec<String>, AllocError>
    ensures { GivesPorts result (reaching_list (map step_seen steps.now) goal.now) }
{
    let arrows = arrows_over(alloc, steps)?;
    let paths = text_graph::reaching(alloc, &arrows, goal)?;
    copies_of(alloc, &paths)
}

/// A step from a port to one that it depends on. The texts are those of the dependency, if its target has no
/// flavors.
#[derive(Drop)]
struct Step<'a> {
    /// The path of the port that depends.
    from: &'a str,
    to: PortPath<'a>,
}

impl<'a> Step<'a> {
    /// The step over an edge, if the edge is of these kinds and met.
    fn over(alloc: Global, kinds: Kinds, edge: &'a RootEdge) -> Result<Option<Step<'a>>, AllocError>
        ensures { GivesStep result (the_reach.arrow_of kinds edge.now) }
    {
        if !kinds.have(edge.edge().kind()) || !is_met(edge.edge().status()) {
            return Ok(None);
        }
        match edge.edge().target() {
            Some(target) => {
                let to = PortPath::of(alloc, target)?;
                let from = edge.root();
                Ok(Some(Step { from, to }))
            }
            None => Ok(None),
        }
    }
}

/// The steps over those of the edges that are of these kinds and met, in their order.
fn steps_over<'a>(
    alloc: Global,
    kinds: Kinds,
    edges: &'a [RootEdge],
) -> Result<Vec<Step<'a>>, AllocError>
    ensures { GivesSteps result (the_reach.arrows_of kinds edges.now) }
{
    let mut steps = Vec::with_capacity(alloc, edges.len())?;
    for edge in edges {
        add_step(Step::over(alloc, kinds, edge)?, &mut steps)?;
    }
    Ok(steps)
}

/// The steps over those of the edges, lent one by one, that are of these kinds and met, in their order.
fn steps_over_some<'a>(
    alloc: Global,
    kinds: Kinds,
    edges: &[&'a RootEdge],
) -> Result<Vec<Step<'a>>, AllocError>
    ensures { GivesSteps result (the_reach.arrows_of kinds (edges_lent edges.now)) }
{
    let mut steps = Vec::with_capacity(alloc, edges.len())?;
    for edge in edges {
        add_step(Step::over(alloc, kinds, edge)?, &mut steps)?;
    }
    Ok(steps)
}

/// Adds a step over an edge to others, if there is one.
fn add_step<'a>(step: Option<Step<'a>>, steps: &mut Vec<Step<'a>>) -> Result<(), AllocError>
    ensures { AddsStep result steps.old steps.new step.entry }
{
    if let Some(step) = step {
        steps.push(step)?;
    }
    Ok(())
}

/// Whether an edge with this status is met, so that a port is reached over it.
fn is_met(status: Status) -> bool
    ensures { result ≡ the_reach.is_met status }
{
    matches!(status, Status::Ok)
}

/// The steps between ports as arrows between texts, for `text_graph`.
fn arrows_over<'a>(alloc: Global, steps: &'a [Step<'_>]) -> Result<Vec<Arrow<'a>>, AllocError>
    ensures { IfOk result (λ arrows. arrows_seen arrows.items ≡ map step_seen steps.now) }
{
    let mut arrows = Vec::with_capacity(alloc, steps.len())?;
    for step in steps {
        arrows.push(Arrow {
            from: step.from,
            to: step.to.text(),
        })?;
    }
    Ok(arrows)
}
