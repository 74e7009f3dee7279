//! A known index: one with all rows that it needs, and what is asked of it.
ghost use Rattle.std.specs.Prelude.{◌≡◌, true, is_some, OnOk};
ghost use Rattle.mk_paths.specs.World.{World};
ghost use Rattle.port_index.specs.Index as indexed;
ghost use Rattle.port_index.specs.Known.{GivesAll, GivesPortsThat, IsIndexOf, IsRootAt, IsSameIndex};

use crate::laws::known_rows_are_enough;
use crate::memory_rows::MemoryRows;
use crate::root_edges::{edges_among, edges_from};
use crate::roots::{ports_among, root_among, roots_among};
use port_deps::{Root, RootEdge};
use port_rules::PortRecord;
use std::alloc::{AllocError, Global};

/// The paths of an index.
#[derive(Debug, Drop)]
pub struct IndexPaths {
    /// The directories in which a makefile may be.
    pub directories: Vec<String>,
    /// Those that are listed.
    pub listed: Vec<String>,
}

/// The index of a ports tree, with what each path leads to on which it depends.
#[derive(Debug, Drop)]
pub struct KnownIndex {
    /// Its paths.
    pub paths: IndexPaths,
    /// The rows of its paths. A path without a makefile needs none.
    pub rows: MemoryRows,
    /// The dependencies of all ports, if they were made.
    pub edges: Option<Vec<RootEdge>>,
}

impl KnownIndex {
    /// The roots of the index: the ports, and the faults met where ports should be, in the order of their
    /// canonical paths, each once. The index lends them all. It fails only if memory runs out.
    pub fn roots(&self, alloc: Global) -> Result<Vec<Root<'_>>, AllocError>
        ensures { GivesAll indexed.roots self.now result }
    {
        known_rows_are_enough();
        roots_among(alloc, &self.paths.listed, &self.rows)
    }

    /// The root of the index at a path, if there is one. It looks at one row, and takes no memory.
    pub fn root_at<'a>(&'a self, path: &'a str) -> Option<Root<'a>>
        ensures { IsRootAt path.now self.now result }
    {
        known_rows_are_enough();
        root_among(path, &self.paths.listed, &self.rows)
    }

    /// The edges of the port at a path of a known index, in the order of its items. Of all rows, it looks at the
    /// port's own, and at those of the paths that its items name. It fails only if memory runs out.
    pub fn edges_from(&self, alloc: Global, path: &str) -> Result<Vec<RootEdge>, AllocError>
        ensures { GivesAll (λ world. indexed.edges_of world path.now) self.now result }
    {
        known_rows_are_enough();
        edges_from(alloc, path, &self.paths.listed, &self.rows)
    }

    /// The ports of the index that pass a test, in the order of their paths. It fails only if memory runs
    /// out.
    pub fn ports_that<F: Fn(&PortRecord) -> bool>(
        &self,
        alloc: Global,
        passes: F,
    ) -> Result<Vec<Root<'_>>, AllocError>
        requires { F.IsAlwaysCallable passes }
        ensures { GivesPortsThat F.Fn passes self.now result }
    {
        known_rows_are_enough();
        ports_among(alloc, &self.paths.listed, &self.rows, passes)
    }

    /// The edges of all ports of the index, in the order of the ports, and those of each port in the order of
    /// its items. It fails only if memory runs out.
    pub fn make_edges(&self, alloc: Global) -> Result<Vec<RootEdge>, AllocError>
        ensures { GivesAll indexed.edges self.now result }
    {
        known_rows_are_enough();
        edges_among(alloc, &self.paths.listed, &self.rows)
    }

    /// Makes the edges of all ports of the index and keeps them with it, unless they are kept. If memory runs
    /// out, nothing changes.
    pub fn keep_edges(&mut self, alloc: Global) -> Result<(), AllocError>
        ensures kept { OnOk result (is_some self.new.edges ≡ true) }
        ensures same { IsSameIndex self.old self.new }
        ensures index { (world : World) → IsIndexOf world self.old → IsIndexOf world self.new }
    {
        if self.edges.is_none() {
            self.edges = Some(self.make_edges(alloc)?);
        }
        Ok(())
    }
}
