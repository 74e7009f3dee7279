//! The sites of lines in an evaluation: their file, and the loops around them.
ghost use Rattle.std.specs.Prelude.{◌≡◌, ◌<◌, length};
ghost use Rattle.mk_loop.specs.Scopes.{iterations_in};
ghost use Rattle.mk_eval.specs.Views.{loops_of};
ghost use Rattle.mk_step.specs.Views.{site_of};
ghost use Rattle.mk_step.specs.Steps.{IsOutside, EntersLoop, IsHere};

use mk_eval::{ExecutedFile, loops_at};
use mk_loop::{Iteration, Iterations};
use mk_paths::Name;
use std::alloc::{AllocError, Global};
use std::rc::Rc;

/// Where lines are.
#[derive(Drop)]
pub(crate) struct Site {
    /// The file that they are in.
    pub(crate) file: Rc<Name>,
    /// How many levels deep files may still include one another.
    pub(crate) levels: u32,
    /// The loops around them, of which the innermost is the last.
    pub(crate) loops: Vec<Iteration>,
}

impl Site {
    /// The site of the lines of a file, outside any loop.
    pub(crate) fn outside(alloc: Global, file: Name, levels: u32) -> Result<Rc<Site>, AllocError>
        ensures { IsOutside file levels result }
    {
        let site = Site {
            file: Rc::new(alloc, file)?,
            levels,
            loops: Vec::new(alloc),
        };
        Ok(Rc::new(alloc, site)?)
    }

    /// The site of the lines of a loop in this site, at the loop's iteration of this index.
    pub(crate) fn inside(
        &self,
        alloc: Global,
        iterations: &Rc<Iterations>,
        index: usize,
    ) -> Result<Rc<Site>, AllocError>
        requires { index < length (iterations_in iterations.now.value) }
        ensures { EntersLoop self.now iterations.now.value index result }
    {
        let site = Site {
            file: self.file.clone()?,
            levels: self.levels,
            loops: loops_at(alloc, self.loops.as_slice(), iterations, index)?,
        };
        Ok(Rc::new(alloc, site)?)
    }

    /// The site of lines as `mk_eval` takes it: where they are executed in the evaluation of this makefile.
    pub(crate) fn here<'a>(&'a self, makefile: &'a Name) -> ExecutedFile<'a>
        ensures place { IsHere makefile.now self.now result }
        ensures loops { loops_of result.loops.now ≡ (site_of self.now).loops }
    {
        ExecutedFile {
            makefile,
            file: &*self.file,
            levels: self.levels,
            loops: self.loops.as_slice(),
        }
    }
}
