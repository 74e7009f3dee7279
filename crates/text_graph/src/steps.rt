//! The steps over arrows: where the arrows from each text lead.
ghost use Rattle.std.specs.Prelude.{◌≡◌, ◌<◌, [], IfOk, length};
ghost use Rattle.std.specs.List.{All};
ghost use Rattle.text_graph.specs.Numbers.{next_kept, BeginWithin};
ghost use Rattle.text_graph.specs.SearchResults.{StepsOver};

use crate::numbers::NumberedArrow;
use std::alloc::{AllocError, Global};

/// Where the arrows from each text lead, by the texts' numbers.
#[derive(Drop)]
pub(crate) struct Steps {
    next: Vec<Vec<usize>>,
}

impl Steps {
    /// The steps over these arrows between so many texts: for each text, where its arrows lead.
    pub(crate) fn over(
        alloc: Global,
        count: usize,
        arrows: &[NumberedArrow],
    ) -> Result<Steps, AllocError>
        requires { BeginWithin count arrows.now }
        ensures count { IfOk result (λ steps. length steps.next.items ≡ count) }
        ensures next { StepsOver result count arrows.now }
    {
        let mut next = nowhere(alloc, count)?;
        for arrow in arrows {
            next[arrow.from].push(arrow.to)?;
        }
        Ok(Steps { next })
    }

    /// The steps from the text with this number: where its arrows lead, in the order of the arrows.
    pub(crate) fn next(&self, number: usize) -> &[usize]
        requires { number < length self.now.next.items }
        ensures { result.now ≡ next_kept self.now number }
    {
        self.next[number].as_slice()
    }
}

/// The steps between so many texts before any arrow: each leads nowhere.
fn nowhere(alloc: Global, count: usize) -> Result<Vec<Vec<usize>>, AllocError>
    ensures count { IfOk result (λ next. length next.items ≡ count) }
    ensures none { IfOk result (λ next. All (λ numbers. numbers.items ≡ []) next.items) }
{
    let mut next = Vec::with_capacity(alloc, count)?;
    while next.len() < count {
        next.push(Vec::with_capacity(alloc, 8)?)?;
    }
    Ok(next)
}
