//! The edges of roots: dependencies of the ports of a ports tree, each with its root.
ghost use Rattle.std.specs.Prelude.{◌≡◌, string_bytes};

use crate::edge::Edge;
use std::marker::Model;

/// An edge of a root: a dependency of a port of a ports tree, with the path of that port.
#[derive(Debug, Drop)]
pub struct RootEdge {
    root: String,
    edge: Edge,
}

impl Model for RootEdge {
    ghost use Rattle.std.specs.Prelude.{string_bytes};
    ghost use Rattle.port_deps.specs.Roots.{RootEdgeValue};

    ghost Value = { RootEdgeValue };

    ghost view = { λ e. record { root = string_bytes e.root; edge = e.edge } };
}

impl RootEdge {
    /// The edge of the root at this canonical path.
    pub fn new(root: String, edge: Edge) -> RootEdge
        ensures { result ≡ record { root = string_bytes root; edge = edge } }
    {
        RootEdge { root, edge }
    }

    /// The path of the root that has the edge, in the canonical form and without a subpackage.
    pub fn root(&self) -> &str
        ensures { result.now ≡ self.now.root }
    {
        self.root.as_str()
    }

    /// The edge of the root: the dependency with its status.
    pub fn edge(&self) -> &Edge
        ensures { result.now ≡ self.now.edge }
    {
        &self.edge
    }
}
