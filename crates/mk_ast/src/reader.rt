//! The reader that puts the lines of a makefile into blocks, one after another.
ghost use Rattle.std.specs.Prelude.{◌≡◌};
ghost use Rattle.mk_ast.specs.Parts.{part_of};
ghost use Rattle.mk_ast.specs.FrameParts.{shown_part};
ghost use Rattle.mk_ast.specs.declared.parser.ParseError.TheVariants as errors;
ghost use Rattle.mk_ast.specs.Blocks.{begin, step};
ghost use Rattle.mk_ast.specs.Blocks.{start_state};
ghost use Rattle.mk_ast.specs.Parser.{block_fault};
ghost use Rattle.mk_ast.specs.ReaderViews.{state_of_reader, stage_of, Steps};
ghost use Rattle.mk_ast.specs.ReaderViews.{EndsContent, HasInnerEffect, MakesChoice, AddsNode, AddsPlainLine};
ghost use Rattle.mk_ast.specs.ReaderViews.{GoesOnWith, AnswersWhole};

use crate::nodes::{BLOCKS, Block, Branch, Makefile, Node};
use crate::parser::{ParseError, ParseFault};
use crate::parts::{FramePart, InnerPart, part_of};
use mk_base::FaultKind;
use mk_text::Logical;
use std::alloc::{AllocError, Global};
use std::rc::Rc;

/// The branches of a choice that have ended.
#[derive(Debug, Drop)]
struct EndedBranches {
    /// That of its `.if`.
    first: Block,
    /// Those of its `.elif`, in order.
    later: Vec<Branch>,
}

/// How far an open block is read.
#[derive(Debug, Drop)]
enum Progress {
    /// After its `.if`.
    If,
    /// After an `.elif`, with the branches before it and its line.
    Elif(EndedBranches, Logical),
    /// After its `.else`, with the branches before it.
    Else(EndedBranches),
    /// After its `.for`.
    For,
}

/// A block that is open.
#[derive(Debug, Drop)]
struct OpenBlock {
    /// What comes before it in the block around it.
    before: Vec<Node>,
    /// Its first line.
    head: Logical,
    progress: Progress,
}

/// What is read of a makefile up to a line.
#[derive(Debug, Drop)]
pub(crate) struct Reader {
    /// What follows the last part of a frame.
    current: Vec<Node>,
    /// The open blocks, the innermost last.
    stack: Vec<OpenBlock>,
}

/// The error of kind `Block` if the blocks of a makefile go wrong at this line.
fn wrong(line: u64) -> ParseError
    ensures { result ≡ errors.Fault (block_fault line) }
{
    ParseError::Fault(ParseFault {
        kind: FaultKind::Block,
        line,
    })
}

/// What an open block is if it ends.
#[derive(Debug, Drop)]
enum Content {
    /// A choice: its branches, and that of its `.else`, if it has one.
    Choice(EndedBranches, Option<Block>),
    /// A loop, with its body.
    Loop(Block),
}

/// What a part makes of the innermost open block.
#[derive(Debug, Drop)]
enum PartEffect {
    /// It is read further.
    GoesOn(OpenBlock),
    /// It ends. The block around it has these nodes then.
    Ends(Vec<Node>),
}

impl Progress {
    /// What an open block of a makefile is if it ends: a choice or a loop. `body` is what follows its last
    /// part.
    fn content(self, alloc: Global, body: Block) -> Result<Content, AllocError>
        ensures { EndsContent result self body.value.items }
    {
        match self {
            Progress::If => {
                let later = Vec::new(alloc);
                Ok(Content::Choice(EndedBranches { first: body, later }, None))
            }
            Progress::Elif(mut ended, last) => {
                ended.later.push(Branch { head: last, body })?;
                Ok(Content::Choice(ended, None))
            }
            Progress::Else(ended) => Ok(Content::Choice(ended, Some(body))),
            Progress::For => Ok(Content::Loop(body)),
        }
    }
}

impl OpenBlock {
    /// What an inner part at this line, as `.else` or `.endif`, makes of the open block; `body` is what
    /// follows the part before it.
    fn after(
        self,
        alloc: Global,
        body: Block,
        part: InnerPart,
        line: Logical,
    ) -> Result<PartEffect, ParseError>
        ensures { HasInnerEffect result self body.value.items part line }
    {
        let OpenBlock {
            before,
            head,
            progress,
        } = self;
        let progress = match (part, progress.content(alloc, body)?) {
            (InnerPart::Elif, Content::Choice(ended, None)) => Progress::Elif(ended, line),
            (InnerPart::Else, Content::Choice(ended, None)) => Progress::Else(ended),
            (InnerPart::Endif, Content::Choice(ended, otherwise)) => {
                return Ok(ending(before, choice(alloc, head, ended, otherwise)?)?);
            }
            (InnerPart::Endfor, Content::Loop(body)) => {
                return Ok(ending(before, Node::Loop { head, body })?);
            }
            _ => return Err(wrong(line.line())),
        };
        Ok(PartEffect::GoesOn(OpenBlock {
            before,
            head,
            progress,
        }))
    }
}

/// The node that the reader makes of a choice once it ends: with this first line, these branches, and that of
/// its `.else`, if it has one.
fn choice(
    alloc: Global,
    head: Logical,
    ended: EndedBranches,
    otherwise: Option<Block>,
) -> Result<Node, AllocError>
    ensures { MakesChoice result head ended otherwise }
{
    Ok(Node::Choice {
        head,
        body: ended.first,
        branches: Rc::new(alloc, ended.later)?,
        otherwise,
    })
}

/// The effect of a part that ends a block of a makefile, as `.endif`: the block is this node, after those
/// before it.
fn ending(before: Vec<Node>, node: Node) -> Result<PartEffect, AllocError>
    ensures { AddsNode result before.items node }
{
    let mut nodes = before;
    nodes.push(node)?;
    Ok(PartEffect::Ends(nodes))
}

impl Reader {
    /// The reader of a makefile's lines into blocks, before the first line.
    pub(crate) fn new(alloc: Global) -> Reader
        ensures { state_of_reader result ≡ start_state }
    {
        Reader {
            current: Vec::new(alloc),
            stack: Vec::new(alloc),
        }
    }

    /// The reader of a makefile's blocks after one more line.
    #[tactic(auto, unfolding(crate::specs::Blocks::step))]
    pub(crate) fn step(self, alloc: Global, line: Logical) -> Result<Reader, ParseError>
        ensures { Steps result line.line (step BLOCKS (state_of_reader self) (part_of line)) }
    {
        match part_of(&line) {
            FramePart::Plain => self.add(line),
            FramePart::If => self.begin(alloc, line, Progress::If),
            FramePart::For => self.begin(alloc, line, Progress::For),
            FramePart::Inner(part) => self.go_on(alloc, part, line),
        }
    }

    /// The reader of a makefile's blocks after a line that frames no block.
    fn add(self, line: Logical) -> Result<Reader, ParseError>
        ensures { AddsPlainLine result self line }
    {
        let Reader { mut current, stack } = self;
        current.push(Node::Line(line))?;
        Ok(Reader { current, stack })
    }

    /// The reader of a makefile's blocks after a line that opens a block. It fails if the block is too deep.
    fn begin(self, alloc: Global, head: Logical, progress: Progress) -> Result<Reader, ParseError>
        ensures { Steps result head.line (begin BLOCKS (state_of_reader self) head (stage_of progress)) }
    {
        let Reader { current, mut stack } = self;
        if stack.len() >= BLOCKS {
            return Err(wrong(head.line()));
        }
        stack.push(OpenBlock {
            before: current,
            head,
            progress,
        })?;
        Ok(Reader {
            current: Vec::new(alloc),
            stack,
        })
    }

    /// The reader of a makefile's blocks after a part that divides or closes the innermost open block.
    fn go_on(self, alloc: Global, part: InnerPart, line: Logical) -> Result<Reader, ParseError>
        ensures { GoesOnWith result self part line }
    {
        let Reader { current, mut stack } = self;
        let Some(innermost) = stack.pop() else {
            return Err(wrong(line.line()));
        };
        match innermost.after(alloc, Rc::new(alloc, current)?, part, line)? {
            PartEffect::GoesOn(next) => {
                stack.push(next)?;
                Ok(Reader {
                    current: Vec::new(alloc),
                    stack,
                })
            }
            PartEffect::Ends(current) => Ok(Reader { current, stack }),
        }
    }

    /// The tree of the makefile whose lines are all read. It fails if a block is still open.
    pub(crate) fn finish(self, alloc: Global) -> Result<Makefile, ParseError>
        ensures { AnswersWhole result self }
    {
        let Reader { current, mut stack } = self;
        match stack.pop() {
            Some(innermost) => Err(wrong(innermost.head.line())),
            None => Ok(Makefile {
                nodes: Rc::new(alloc, current)?,
            }),
        }
    }
}
