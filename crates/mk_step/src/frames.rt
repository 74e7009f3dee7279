//! The frames of a machine: what is still to be done of an evaluation, and what heads of blocks leave to be
//! done.
ghost use Rattle.std.specs.Prelude.{◌≡◌, ◌∷◌, ◌<◌, ◌≤◌, ◌+◌, ◌&&◌, length, IfOk, IfSome, [], None};
ghost use Rattle.mk_step.specs.Costs.{Costs};
ghost use Rattle.mk_step.specs.Views.{site_of, frame_at, frame_of, inner_frames, nodes_in};
ghost use Rattle.mk_step.specs.Steps.{Chooses, Repeats, LeavesInner, PutsOn, PutsFirst, Settles, SettlesAt, SettlesAll};
ghost use Rattle.mk_step.specs.Steps.{IsNoHeavier, AreNoHeavier, WeighsNothing};

use crate::blank_lines::skip_blank_lines;
use crate::searches::Search;
use crate::sites::Site;
use mk_ast::{Block, Branches};
use mk_eval::EvalState;
use mk_loop::Iterations;
use mk_text::Logical;
use std::alloc::AllocError;
use std::rc::Rc;

/// What is still to be done at one site.
#[derive(Drop)]
pub(crate) struct Frame {
    /// Where it is.
    pub(crate) site: Rc<Site>,
    /// What it is.
    pub(crate) to_do: ToDo,
}

/// What may be still to be done.
#[derive(Drop)]
pub(crate) enum ToDo {
    /// Lines and blocks.
    Lines(LinesLeft),
    /// Later branches of a choice.
    Later(BranchesLeft),
    /// Iterations of a loop.
    Iterations(IterationsLeft),
    /// The modules that a line asks for.
    Modules {
        /// The number of the line.
        line: u64,
    },
    /// The modules of the words that are left.
    Searches(Search),
}

/// The lines and blocks of a block that are still to be done.
#[derive(Drop)]
pub(crate) struct LinesLeft {
    /// The block that they are in.
    pub(crate) block: Block,
    /// The index of the next one.
    pub(crate) next: usize,
}

/// The later branches of a choice that may still be done.
#[derive(Drop)]
pub(crate) struct BranchesLeft {
    /// Those with a condition.
    pub(crate) branches: Branches,
    /// The index of the next one.
    pub(crate) next: usize,
    /// The last one, which has no condition.
    pub(crate) otherwise: Option<Block>,
}

/// The iterations of a loop that are still to be done.
#[derive(Drop)]
pub(crate) struct IterationsLeft {
    /// The number of the loop's first line.
    pub(crate) line: u64,
    /// The lines of the loop.
    pub(crate) body: Block,
    /// All its iterations.
    pub(crate) iterations: Rc<Iterations>,
    /// The index of the next one.
    pub(crate) next: usize,
}

/// What is to be done before what follows a line.
#[derive(Drop)]
pub(crate) struct Inner {
    /// The first that is to be done: the lines of a file, or what the head of a block leaves.
    pub(crate) lines: Option<Frame>,
    /// After that, the modules that the line asks for.
    pub(crate) modules: Option<Frame>,
}

impl Inner {
    /// The frames that a line leaves to be done before what follows: the lines of the file that it opened, if
    /// any, and its modules, if it asks for them.
    pub(crate) fn of_line(
        site: &Rc<Site>,
        line: u64,
        lines: Option<Frame>,
        may_ask: bool,
        state: &EvalState,
    ) -> Result<Inner, AllocError>
        ensures { LeavesInner site.now line lines (may_ask && state.now.shared_asked) result }
    {
        if !may_ask || !state.shared_asked {
            return Ok(Inner {
                lines,
                modules: None,
            });
        }
        let site = site.clone()?;
        let to_do = ToDo::Modules { line };
        Ok(Inner {
            lines,
            modules: Some(Frame { site, to_do }),
        })
    }

    /// Puts the frames that a line or a block leaves to be done on top of the machine's other frames.
    pub(crate) fn push_onto(self, frames: &mut Vec<Frame>) -> Result<(), AllocError>
        ensures { PutsOn result (inner_frames self) frames.old.items frames.new.items }
    {
        let Inner { lines, modules } = self;
        match modules {
            None => push_if_there(frames, lines),
            Some(modules) => {
                frames.push(modules)?;
                push_if_there(frames, lines)
            }
        }
    }

    /// The frame that the head of a block leaves to be done before what follows the block.
    pub(crate) fn of_block(site: Rc<Site>, to_do: ToDo) -> Inner
        ensures { inner_frames result ≡ frame_at (site_of site.value) to_do ∷ [] }
    {
        Inner {
            lines: Some(Frame { site, to_do }),
            modules: None,
        }
    }
}

impl Frame {
    /// The frame of a machine, past all that costs nothing at its beginning, as blank lines. It is `None` if
    /// nothing else is to be done in it.
    fn settled(self) -> Option<Frame>
        ensures alike { Settles (frame_of self) result }
        ensures lighter { IsNoHeavier (frame_of self) result }
        ensures costs { IfSome result (λ frame. Costs (frame_of frame)) }
    {
        let Frame { site, to_do } = self;
        match to_do {
            ToDo::Lines(left) => lines_from(site, left),
            ToDo::Later(left) => later_from(site, left),
            ToDo::Iterations(left) => iterations_from(site, left),
            ToDo::Modules { line } => Some(Frame {
                site,
                to_do: ToDo::Modules { line },
            }),
            ToDo::Searches(search) => searches_from(site, search),
        }
    }
}

/// Puts a frame, if there is one, on top of a machine's other frames.
fn push_if_there(frames: &mut Vec<Frame>, frame: Option<Frame>) -> Result<(), AllocError>
    ensures { PutsFirst result frame frames.old.items frames.new.items }
{
    match frame {
        None => Ok(()),
        Some(frame) => {
            frames.push(frame)?;
            Ok(())
        }
    }
}

/// The frame of a block's lines that are left, without the blank lines that they begin with. It is `None` if
/// there are no others.
fn lines_from(site: Rc<Site>, left: LinesLeft) -> Option<Frame>
    ensures alike { SettlesAt site (ToDo.Lines left) result }
    ensures lighter { WeighsNothing result }
    ensures costs { IfSome result (λ frame. Costs (frame_of frame)) }
{
    let LinesLeft { block, next } = left;
    let next = skip_blank_lines(block.as_slice(), next);
    if next < block.len() {
        let to_do = ToDo::Lines(LinesLeft { block, next });
        return Some(Frame { site, to_do });
    }
    None
}

/// The frame of the later branches of a choice that are left, or of the lines of the last one if no other is
/// left. It is `None` if there is none.
fn later_from(site: Rc<Site>, left: BranchesLeft) -> Option<Frame>
    ensures alike { SettlesAt site (ToDo.Later left) result }
    ensures lighter { WeighsNothing result }
    ensures costs { IfSome result (λ frame. Costs (frame_of frame)) }
{
    let BranchesLeft {
        branches,
        next,
        otherwise,
    } = left;
    if next < branches.as_slice().len() {
        let to_do = ToDo::Later(BranchesLeft {
            branches,
            next,
            otherwise,
        });
        return Some(Frame { site, to_do });
    }
    match otherwise {
        Some(block) => lines_from(site, LinesLeft { block, next: 0 }),
        None => None,
    }
}

/// The frame of a loop's iterations that are left. It is `None` if there are none.
fn iterations_from(site: Rc<Site>, left: IterationsLeft) -> Option<Frame>
    ensures alike { SettlesAt site (ToDo.Iterations left) result }
    ensures lighter { WeighsNothing result }
    ensures costs { IfSome result (λ frame. Costs (frame_of frame)) }
{
    if left.next < left.iterations.count() {
        let to_do = ToDo::Iterations(left);
        return Some(Frame { site, to_do });
    }
    None
}

/// The frame of the modules whose words are left. It is `None` if none is.
fn searches_from(site: Rc<Site>, search: Search) -> Option<Frame>
    ensures alike { SettlesAt site (ToDo.Searches search) result }
    ensures lighter { IsNoHeavier (frame_at (site_of site.value) (ToDo.Searches search)) result }
    ensures costs { IfSome result (λ frame. Costs (frame_of frame)) }
{
    if search.next < search.words.len() {
        let to_do = ToDo::Searches(search);
        return Some(Frame { site, to_do });
    }
    None
}

/// Takes the innermost frame of a machine with something to do that costs a unit, past all that comes before
/// it at no cost. Frames inside it with nothing else to do are dropped. It is `None` if there is no such
/// frame.
pub(crate) fn next_frame(frames: &mut Vec<Frame>) -> Option<Frame>
    ensures alike { SettlesAll frames.old.items frames.new.items result }
    ensures lighter { AreNoHeavier frames.old.items frames.new.items result }
    ensures costs { IfSome result (λ frame. Costs (frame_of frame)) }
    ensures none { result ≡ None → frames.new.items ≡ [] }
{
    while let Some(frame) = frames.pop() {
        if let Some(frame) = frame.settled() {
            return Some(frame);
        }
    }
    None
}

/// What is left to be done of a choice once its first condition is judged: its lines, or its later branches.
pub(crate) fn chosen(
    held: bool,
    body: &Block,
    branches: &Branches,
    otherwise: &Option<Block>,
) -> Result<ToDo, AllocError>
    ensures { IfOk result (Chooses held body.now branches.now 0 otherwise.now) }
{
    if held {
        return Ok(ToDo::Lines(LinesLeft {
            block: body.clone()?,
            next: 0,
        }));
    }
    Ok(ToDo::Later(BranchesLeft {
        branches: branches.clone()?,
        next: 0,
        otherwise: shared(otherwise)?,
    }))
}

/// The last branch of a choice once more, as a frame that is left shares it.
fn shared(otherwise: &Option<Block>) -> Result<Option<Block>, AllocError>
    ensures { IfOk result (λ shared. nodes_in shared ≡ nodes_in otherwise.now) }
{
    match otherwise {
        Some(block) => Ok(Some(block.clone()?)),
        None => Ok(None),
    }
}

/// What is left to be done of a loop once its header is read: all its iterations.
pub(crate) fn begun(
    head: &Logical,
    body: &Block,
    iterations: Rc<Iterations>,
) -> Result<ToDo, AllocError>
    ensures { IfOk result (Repeats head.now.line body.now iterations) }
{
    Ok(ToDo::Iterations(IterationsLeft {
        line: head.line(),
        body: body.clone()?,
        iterations,
        next: 0,
    }))
}

/// What is left to be done of a choice once the condition of the next branch, which has this body, is judged.
pub(crate) fn after_condition(held: bool, body: Block, left: BranchesLeft) -> ToDo
    requires { left.next < length left.branches.value.items }
    ensures { Chooses held body left.branches (left.next + 1) left.otherwise result }
{
    if held {
        return ToDo::Lines(LinesLeft {
            block: body,
            next: 0,
        });
    }
    ToDo::Later(BranchesLeft {
        next: left.next + 1,
        ..left
    })
}
