//! The steps of a machine that evaluates a makefile: the things that it does, one after another.
ghost use Rattle.std.specs.Prelude.{◌≡◌, ◌<◌, length};
ghost use Rattle.mk_base.specs.Meter.{IsLater};
ghost use Rattle.mk_files.specs.Work.{Asks};
ghost use Rattle.mk_loop.specs.Scopes.{iterations_in};
ghost use Rattle.mk_step.specs.Costs.{Costs};
ghost use Rattle.mk_step.specs.Views.{frame_of};
ghost use Rattle.mk_step.specs.Steps.{Advances, StepsAt, StepsAlone, DoesNode, DoesLine, ReadsLines};

use crate::frames::{
    BranchesLeft, Frame, Inner, IterationsLeft, LinesLeft, ToDo, after_condition, begun, chosen,
};
use crate::machine::Machine;
use crate::searches::Search;
use crate::sites::Site;
use mk_ast::{Block, Node};
use mk_base::{Fault, PureStop, Stop};
use mk_eval::{
    ExecutedLine, Included, Parses, begin_iteration, holds, iterations_at, may_ask_modules,
    module_words, open_line,
};
use mk_files::Files;
use mk_text::Logical;
use std::alloc::Global;
use std::rc::Rc;

impl Machine {
    /// A step of a machine: the next thing that this frame has to do, which costs a unit or more, or is about
    /// modules.
    pub(crate) fn step<F: Files, P: Parses>(
        &mut self,
        alloc: Global,
        frame: Frame,
        parses: &mut P,
        files: &mut F,
    ) -> Result<(), Stop<Fault>>
        requires { Costs (frame_of frame) }
        ensures gives { Advances F.view frame (self.old, files.old) (self.new, files.new) result }
        ensures asks { Asks F.fails_with result (F.view files.old) (F.view files.new) }
        ensures later { IsLater self.old.budget self.new.budget }
        ensures makefile { self.new.makefile ≡ self.old.makefile }
        ensures parses { P.becomes parses.old parses.new }
    {
        let Frame { site, to_do } = frame;
        match to_do {
            ToDo::Lines(left) => self.step_lines(alloc, site, left, parses, files),
            ToDo::Later(left) => self.step_later(alloc, site, left, files),
            ToDo::Iterations(left) => Ok(self.step_iterations(alloc, site, left)?),
            ToDo::Modules { line } => Ok(self.step_modules(alloc, site, line)?),
            ToDo::Searches(search) => self.step_searches(alloc, site, search, parses, files),
        }
    }

    /// A step of a machine: does the next line, or begins the next block, and leaves what follows it.
    fn step_lines<F: Files, P: Parses>(
        &mut self,
        alloc: Global,
        site: Rc<Site>,
        left: LinesLeft,
        parses: &mut P,
        files: &mut F,
    ) -> Result<(), Stop<Fault>>
        requires { left.next < length left.block.value.items }
        ensures gives { StepsAt F.view site (ToDo.Lines left)
            (self.old, files.old) (self.new, files.new) result }
        ensures asks { Asks F.fails_with result (F.view files.old) (F.view files.new) }
        ensures later { IsLater self.old.budget self.new.budget }
        ensures makefile { self.new.makefile ≡ self.old.makefile }
        ensures parses { P.becomes parses.old parses.new }
    {
        let LinesLeft { block, next } = left;
        let nodes = block.as_slice();
        let inner = self.do_node(alloc, &site, &nodes[next], parses, files)?;
        let next = next + 1;
        let to_do = ToDo::Lines(LinesLeft { block, next });
        self.frames.push(Frame { site, to_do })?;
        inner.push_onto(&mut self.frames)?;
        Ok(())
    }

    /// A machine does a line, or begins a block. The frames that this gives are to be done before what
    /// follows.
    fn do_node<F: Files, P: Parses>(
        &mut self,
        alloc: Global,
        site: &Rc<Site>,
        node: &Node,
        parses: &mut P,
        files: &mut F,
    ) -> Result<Inner, Stop<Fault>>
        ensures gives { DoesNode F.view site.now node.now
            (self.old, files.old) (self.new, files.new) result }
        ensures asks { Asks F.fails_with result (F.view files.old) (F.view files.new) }
        ensures later { IsLater self.old.budget self.new.budget }
        ensures frames { self.new.frames ≡ self.old.frames }
        ensures makefile { self.new.makefile ≡ self.old.makefile }
        ensures parses { P.becomes parses.old parses.new }
    {
        let here = site.here(&self.makefile);
        match node {
            Node::Line(line) => self.do_line(alloc, site, line, parses, files),
            Node::Choice {
                head,
                body,
                branches,
                otherwise,
            } => {
                let held = holds(alloc, here, head, &self.state, files, &mut self.budget)?;
                let to_do = chosen(held, body, branches, otherwise)?;
                Ok(Inner::of_block(site.clone()?, to_do))
            }
            Node::Loop { head, body } => {
                let iterations = iterations_at(alloc, here, head, &self.state, &mut self.budget)?;
                let to_do = begun(head, body, iterations)?;
                Ok(Inner::of_block(site.clone()?, to_do))
            }
        }
    }

    /// A machine does a line that frames no block. If it opens a file, the file's lines are to be done before
    /// what follows, and after them the modules that the line asks for, if it does.
    fn do_line<F: Files, P: Parses>(
        &mut self,
        alloc: Global,
        site: &Rc<Site>,
        line: &Logical,
        parses: &mut P,
        files: &mut F,
    ) -> Result<Inner, Stop<Fault>>
        ensures gives { DoesLine F.view site.now line.now
            (self.old, files.old) (self.new, files.new) result }
        ensures asks { Asks F.fails_with result (F.view files.old) (F.view files.new) }
        ensures later { IsLater self.old.budget self.new.budget }
        ensures frames { self.new.frames ≡ self.old.frames }
        ensures makefile { self.new.makefile ≡ self.old.makefile }
        ensures parses { P.becomes parses.old parses.new }
    {
        let here = site.here(&self.makefile);
        let may_ask = may_ask_modules(&self.state);
        let (state, budget) = (&mut self.state, &mut self.budget);
        match open_line(alloc, here, line, state, files, budget)? {
            None => Ok(Inner::of_line(site, line.line(), None, may_ask, &self.state)?),
            Some(included) => {
                let lines = lines_in(alloc, included, site.levels - 1, parses)?;
                Ok(Inner::of_line(site, line.line(), Some(lines), may_ask, &self.state)?)
            }
        }
    }

    /// A step of a machine: judges the condition of the next branch of a choice.
    fn step_later<F: Files>(
        &mut self,
        alloc: Global,
        site: Rc<Site>,
        left: BranchesLeft,
        files: &mut F,
    ) -> Result<(), Stop<Fault>>
        requires { left.next < length left.branches.value.items }
        ensures gives { StepsAt F.view site (ToDo.Later left)
            (self.old, files.old) (self.new, files.new) result }
        ensures asks { Asks F.fails_with result (F.view files.old) (F.view files.new) }
        ensures later { IsLater self.old.budget self.new.budget }
        ensures makefile { self.new.makefile ≡ self.old.makefile }
    {
        let here = site.here(&self.makefile);
        let branch = &left.branches.as_slice()[left.next];
        let head = &branch.head;
        let held = holds(alloc, here, head, &self.state, files, &mut self.budget)?;
        let body = branch.body.clone()?;
        let to_do = after_condition(held, body, left);
        self.frames.push(Frame { site, to_do })?;
        Ok(())
    }

    /// A step of a machine: begins the next iteration of a loop, and leaves those after it.
    fn step_iterations(
        &mut self,
        alloc: Global,
        site: Rc<Site>,
        left: IterationsLeft,
    ) -> Result<(), PureStop<Fault>>
        requires { left.next < length (iterations_in left.iterations.value) }
        ensures gives { StepsAlone site (ToDo.Iterations left) self.old self.new result }
        ensures later { IsLater self.old.budget self.new.budget }
        ensures makefile { self.new.makefile ≡ self.old.makefile }
    {
        let here = site.here(&self.makefile);
        let line = ExecutedLine {
            here,
            number: left.line,
        };
        begin_iteration(alloc, line, &mut self.budget)?;
        let is_one = left.next < left.iterations.count();
        prove!(is_one);
        let inner = Frame {
            site: site.inside(alloc, &left.iterations, left.next)?,
            to_do: ToDo::Lines(LinesLeft {
                block: left.body.clone()?,
                next: 0,
            }),
        };
        let next = left.next + 1;
        let to_do = ToDo::Iterations(IterationsLeft { next, ..left });
        self.frames.push(Frame { site, to_do })?;
        self.frames.push(inner)?;
        Ok(())
    }

    /// A step of a machine: expands MODULES at this line, and leaves the search for each of its words.
    fn step_modules(
        &mut self,
        alloc: Global,
        site: Rc<Site>,
        line: u64,
    ) -> Result<(), PureStop<Fault>>
        ensures gives { StepsAlone site (ToDo.Modules line) self.old self.new result }
        ensures later { IsLater self.old.budget self.new.budget }
        ensures makefile { self.new.makefile ≡ self.old.makefile }
    {
        let here = site.here(&self.makefile);
        let at = ExecutedLine { here, number: line };
        let words = module_words(alloc, at, &self.state, &mut self.budget)?;
        let to_do = ToDo::Searches(Search {
            line,
            words,
            next: 0,
        });
        self.frames.push(Frame { site, to_do })?;
        Ok(())
    }

    /// A step of a machine: looks for the file of the next module, and leaves its lines and the words after
    /// it.
    fn step_searches<F: Files, P: Parses>(
        &mut self,
        alloc: Global,
        site: Rc<Site>,
        mut search: Search,
        parses: &mut P,
        files: &mut F,
    ) -> Result<(), Stop<Fault>>
        ensures gives { StepsAt F.view site (ToDo.Searches search)
            (self.old, files.old) (self.new, files.new) result }
        ensures asks { Asks F.fails_with result (F.view files.old) (F.view files.new) }
        ensures later { IsLater self.old.budget self.new.budget }
        ensures makefile { self.new.makefile ≡ self.old.makefile }
        ensures parses { P.becomes parses.old parses.new }
    {
        let here = site.here(&self.makefile);
        let found = search.next_module(alloc, here, &self.state, files, &mut self.budget)?;
        let levels = site.levels;
        let to_do = ToDo::Searches(search);
        match found {
            None => {
                self.frames.push(Frame { site, to_do })?;
                Ok(())
            }
            Some(included) => {
                let lines = lines_in(alloc, included, levels - 1, parses)?;
                self.frames.push(Frame { site, to_do })?;
                self.frames.push(lines)?;
                Ok(())
            }
        }
    }
}

/// The frame of the lines of a file that a machine has read, parsed into its tree.
pub(crate) fn lines_in<P: Parses>(
    alloc: Global,
    included: Included,
    levels: u32,
    parses: &mut P,
) -> Result<Frame, PureStop<Fault>>
    ensures gives { ReadsLines included levels result }
    ensures parses { P.becomes parses.old parses.new }
{
    let Included { name, content } = included;
    match parses.parsed(&content)? {
        Ok(makefile) => Ok(Frame {
            site: Site::outside(alloc, name, levels)?,
            to_do: ToDo::Lines(LinesLeft {
                block: makefile.nodes.clone()?,
                next: 0,
            }),
        }),
        Err(fault) => {
            let fault = Fault::new(alloc, fault.kind, name.as_str(), fault.line)?;
            Err(PureStop::Fault(fault))
        }
    }
}
