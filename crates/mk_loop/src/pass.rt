//! The pass over a line of a loop's body, from left to right, which puts in words.
ghost use Rattle.std.specs.Prelude.{◌≡◌, ◌↔◌, ◌≤◌, ◌<◌, ◌+◌, ◌^◌, true, false, [], length, drop};
ghost use Rattle.std.specs.Prelude.{slice_index, Some, None, All, IfOk};
ghost use Rattle.mk_base.specs.Meter.{IsLater};
ghost use Rattle.mk_ref.specs.declared.opening.Opening.TheVariants as openings;
ghost use Rattle.mk_ref.specs.Atoms.{opening_of};
ghost use Rattle.mk_loop.specs.BodyLine as body_line;
ghost use Rattle.mk_loop.specs.Joinings.{so_far};
ghost use Rattle.mk_loop.specs.Places.{mark_of, surround_of, closes};
ghost use Rattle.mk_loop.specs.Places.{HasAsciiMark, IsPlaced, PaysFor, StepsOn};
ghost use Rattle.mk_loop.specs.Passes.{KeepsMark, BeginsChange, PutsWord, FinishesLine, EndsChange};

use crate::iterations::Iteration;
use crate::joined_text::Joined;
use crate::reference_names::name_end;
use crate::scopes::word_in;
use mk_base::{Budget, FaultKind, PureStop};
use mk_env::{Env, modify};
use mk_ref::{Opening, opening_at};
use std::alloc::{AllocError, Global};

/// A line of a loop's body.
#[derive(Clone, Copy)]
pub(crate) struct Body<'a> {
    /// Its text.
    pub(crate) line: &'a str,
    /// The loops around it, the innermost last.
    pub(crate) loops: &'a [Iteration],
    /// The variables, with what other references mean.
    pub(crate) variables: &'a Env,
}

/// A reference that a place of the line is in.
#[derive(Drop)]
enum Around {
    /// It stays; this mark closes it.
    Kept(u8),
    /// It is replaced, and the place is in its modifiers.
    Replaced {
        /// The mark that closes it.
        mark: u8,
        /// The word that replaces it.
        word: String,
        /// What is joined before it.
        front: Joined,
    },
}

impl Around {
    /// The mark that closes a reference around the place of a pass.
    fn mark(&self) -> u8
        ensures { result ≡ mark_of (surround_of self.now) }
    {
        match self {
            Around::Kept(mark) => *mark,
            Around::Replaced { mark, .. } => *mark,
        }
    }
}

/// How far a line is read.
#[derive(Drop)]
pub(crate) struct Pass {
    /// What is joined of the innermost text that the place is in: the line, or the modifiers of the
    /// innermost replaced reference.
    joined: Joined,
    /// The references that the place is in, the innermost last.
    around: Vec<Around>,
    /// From here up to the place, the line isn't copied yet: it stays as it is written.
    copied: usize,
    /// The place.
    at: usize,
}

impl Pass {
    /// The pass over a line of a loop's body, at the line's beginning.
    pub(crate) fn new(alloc: Global) -> Pass
        ensures joined { so_far result.joined ≡ body_line.nothing }
        ensures around { result.around.items ≡ [] }
        ensures copied { result.copied ≡ 0 }
        ensures at { result.at ≡ 0 }
    {
        Pass {
            joined: Joined::new(alloc),
            around: Vec::new(alloc),
            copied: 0,
            at: 0,
        }
    }

    /// The place in the line that a pass has come to.
    pub(crate) fn at(&self) -> usize
        ensures { result ≡ self.now.at }
    {
        self.at
    }

    /// The pass after one atom or mark of the line of a loop's body, or inside the reference that begins at
    /// its place.
    pub(crate) fn step(
        self,
        alloc: Global,
        body: Body<'_>,
        budget: &mut Budget,
    ) -> Result<Pass, PureStop<FaultKind>>
        requires placed { IsPlaced body.line.now self }
        requires near { self.at < length body.line.now }
        ensures later { IsLater budget.old budget.new }
        ensures placed { IfOk result (λ next. IsPlaced body.entry.line.now next) }
        ensures onward { IfOk result (λ next. self.at < next.at) }
        ensures paid { IfOk result (λ next. PaysFor self budget.old next budget.new) }
        ensures goes { StepsOn body.entry self budget.old result budget.new }
    {
        let bytes = body.line.as_bytes();
        if self.closes(bytes[self.at]) {
            return self.close(alloc, body, budget);
        }
        match opening_at(bytes, self.at) {
            None => Ok(self.on(1)),
            Some(Opening::Doubled) => Ok(self.on(2)),
            Some(Opening::Letter) => self.letter(alloc, body, budget),
            Some(Opening::Marked(mark)) => self.marked(alloc, body, mark, budget),
        }
    }

    /// Whether this byte closes the innermost reference around the place of a pass.
    fn closes(&self, byte: u8) -> bool
        ensures { result ≡ closes self.now byte }
    {
        match self.around.last() {
            None => false,
            Some(around) => byte == around.mark(),
        }
    }

    /// The pass after this many bytes of the line, which stay as they are written.
    fn on(self, bytes: usize) -> Pass
        requires { self.at + bytes < 2 ^ 64 }
        ensures { result ≡ record self { at = self.at + bytes } }
    {
        Pass {
            at: self.at + bytes,
            ..self
        }
    }

    /// The pass after the reference of one letter at its place. If that names a loop's variable, its word is
    /// put in.
    fn letter(
        self,
        alloc: Global,
        body: Body<'_>,
        budget: &mut Budget,
    ) -> Result<Pass, PureStop<FaultKind>>
        requires placed { IsPlaced body.line.now self }
        requires room { self.at + 2 ≤ length body.line.now }
        requires opens { opening_of (drop self.at body.line.now) ≡ Some openings.Letter }
        requires stays { closes self (slice_index body.line.now self.at) ≡ false }
        ensures later { IsLater budget.old budget.new }
        ensures placed { IfOk result (λ next. IsPlaced body.entry.line.now next) }
        ensures onward { IfOk result (λ next. self.at < next.at) }
        ensures paid { IfOk result (λ next. PaysFor self budget.old next budget.new) }
        ensures goes { StepsOn body.entry self budget.old result budget.new }
    {
        let end = self.at + 2;
        match word_in(body.loops, &body.line[self.at + 1..end]) {
            None => Ok(self.on(2)),
            Some(word) => {
                budget.pay()?;
                self.put(alloc, body, end, word)
            }
        }
    }

    /// The pass after the reference at its place, which this mark closes, or inside it. If it names a loop's
    /// variable, it is replaced by the word.
    fn marked(
        self,
        alloc: Global,
        body: Body<'_>,
        mark: u8,
        budget: &mut Budget,
    ) -> Result<Pass, PureStop<FaultKind>>
        requires placed { IsPlaced body.line.now self }
        requires room { self.at + 2 ≤ length body.line.now }
        requires opens { opening_of (drop self.at body.line.now) ≡ Some (openings.Marked mark) }
        requires stays { closes self (slice_index body.line.now self.at) ≡ false }
        ensures later { IsLater budget.old budget.new }
        ensures placed { IfOk result (λ next. IsPlaced body.entry.line.now next) }
        ensures onward { IfOk result (λ next. self.at < next.at) }
        ensures paid { IfOk result (λ next. PaysFor self budget.old next budget.new) }
        ensures goes { StepsOn body.entry self budget.old result budget.new }
    {
        let bytes = body.line.as_bytes();
        let start = self.at + 2;
        let Some(end) = name_end(bytes, start, mark) else {
            return Ok(self.keep(mark)?);
        };
        let Some(word) = word_in(body.loops, &body.line[start..end]) else {
            return Ok(self.keep(mark)?);
        };
        budget.pay()?;
        if bytes[end] == mark {
            self.put(alloc, body, end + 1, word)
        } else {
            Ok(self.replace(alloc, body, mark, end + 1, word)?)
        }
    }

    /// The pass inside the reference at its place, which stays as it is written.
    fn keep(self, mark: u8) -> Result<Pass, AllocError>
        requires { self.at + 2 < 2 ^ 64 }
        ensures joined { IfOk result (λ next. next.joined ≡ self.joined) }
        ensures around { KeepsMark result self mark }
        ensures copied { IfOk result (λ next. next.copied ≡ self.copied) }
        ensures at { IfOk result (λ next. next.at ≡ self.at + 2) }
    {
        let mut around = self.around;
        around.push(Around::Kept(mark))?;
        Ok(Pass {
            joined: self.joined,
            around,
            copied: self.copied,
            at: self.at + 2,
        })
    }

    /// The pass inside the modifiers of the reference at its place, which the word of a loop replaces. The
    /// modifiers begin at this index.
    fn replace(
        self,
        alloc: Global,
        body: Body<'_>,
        mark: u8,
        modifiers: usize,
        word: &str,
    ) -> Result<Pass, AllocError>
        requires placed { IsPlaced body.line.now self }
        requires dollar { slice_index body.line.now self.at ≡ 36 }
        requires near { self.at < length body.line.now }
        requires ascii { mark < 128 }
        ensures marks { IfOk result (λ next. All HasAsciiMark next.around.items) }
        ensures joined { IfOk result (λ next. so_far next.joined ≡ body_line.nothing) }
        ensures around { BeginsChange result self body.entry.line.now mark word.now }
        ensures copied { IfOk result (λ next. next.copied ≡ modifiers) }
        ensures at { IfOk result (λ next. next.at ≡ modifiers) }
    {
        let front = self.joined.as_written(&body.line[self.copied..self.at])?;
        let mut around = self.around;
        let word = String::from_str(alloc, word)?;
        around.push(Around::Replaced { mark, word, front })?;
        Ok(Pass {
            joined: Joined::new(alloc),
            around,
            copied: modifiers,
            at: modifiers,
        })
    }

    /// The pass after the reference that ends at this index, with the word of a loop put in its place.
    fn put(
        self,
        alloc: Global,
        body: Body<'_>,
        end: usize,
        word: &str,
    ) -> Result<Pass, PureStop<FaultKind>>
        requires placed { IsPlaced body.line.now self }
        requires dollar { slice_index body.line.now self.at ≡ 36 }
        requires near { self.at < length body.line.now }
        ensures gives { PutsWord result self body.entry.line.now word.now }
        ensures around { IfOk result (λ next. next.around.items ≡ self.around.items) }
        ensures copied { IfOk result (λ next. next.copied ≡ end) }
        ensures at { IfOk result (λ next. next.at ≡ end) }
    {
        let front = self.joined.as_written(&body.line[self.copied..self.at])?;
        Ok(Pass {
            joined: front.with_word(alloc, word)?,
            around: self.around,
            copied: end,
            at: end,
        })
    }

    /// The pass after the mark at its place, which closes the innermost reference. If that is replaced, its
    /// modifiers are applied to its word.
    fn close(
        self,
        alloc: Global,
        body: Body<'_>,
        budget: &mut Budget,
    ) -> Result<Pass, PureStop<FaultKind>>
        requires placed { IsPlaced body.line.now self }
        requires near { self.at < length body.line.now }
        requires closes { closes self (slice_index body.line.now self.at) ≡ true }
        ensures later { IsLater budget.old budget.new }
        ensures placed { IfOk result (λ next. IsPlaced body.entry.line.now next) }
        ensures onward { IfOk result (λ next. self.at < next.at) }
        ensures paid { IfOk result (λ next. PaysFor self budget.old next budget.new) }
        ensures goes { StepsOn body.entry self budget.old result budget.new }
    {
        let Pass {
            joined,
            around,
            copied,
            at,
        } = self;
        let mut around = around;
        match around.pop() {
            None => unreachable!(),
            Some(Around::Kept(_)) => Ok(Pass {
                joined,
                around,
                copied,
                at: at + 1,
            }),
            Some(
                Around::Replaced {
                    mark: _,
                    word,
                    front,
                },
            ) => {
                let modifiers = joined.as_written(&body.line[copied..at])?;
                let word = word.as_str();
                Ok(Pass {
                    joined: change(alloc, body.variables, modifiers, word, front, budget)?,
                    around,
                    copied: at + 1,
                    at: at + 1,
                })
            }
        }
    }

    /// The line of a loop's body after the whole pass; `None` if no word was put in.
    pub(crate) fn finished(self, body: Body<'_>) -> Result<Option<String>, PureStop<FaultKind>>
        requires placed { IsPlaced body.line.now self }
        requires all { self.at ≡ length body.line.now }
        ensures none { IfOk result (λ made. made ≡ None ↔ (self.copied ≡ 0)) }
        ensures gives { FinishesLine result self body.entry.line.now }
    {
        if self.copied == 0 {
            return Ok(None);
        }
        let joined = self.joined.as_written(&body.line[self.copied..])?;
        Ok(Some(joined.finished()?))
    }
}

/// What a pass has joined once it has replaced the reference after `front` by what its modifiers make of the
/// word of a loop.
fn change(
    alloc: Global,
    variables: &Env,
    modifiers: Joined,
    word: &str,
    front: Joined,
    budget: &mut Budget,
) -> Result<Joined, PureStop<FaultKind>>
    ensures later { IsLater budget.old budget.new }
    ensures gives { EndsChange result variables.now word.now front modifiers budget.old budget.new }
{
    let modifiers = modifiers.finished()?;
    let changed = modify(alloc, variables, word, modifiers.as_str(), budget)?;
    front.with_word(alloc, changed.as_str())
}
