//! Arrows from text to text, their ends and their beginnings.
ghost use Rattle.text_graph.specs.Arrows.{arrows_seen, ends_of};
ghost use Rattle.text_graph.specs.TextSearch.{all_turned, next_texts};
ghost use Rattle.text_graph.specs.SearchResults.{GivesArrows, LendsTexts};

use std::alloc::{AllocError, Global};

/// An arrow from a text to a text.
#[derive(Clone, Copy, Debug)]
pub struct Arrow<'a> {
    /// The text where it begins.
    pub from: &'a str,
    /// The text where it ends.
    pub to: &'a str,
}

/// Arrows between texts, turned: each from its end to its beginning.
pub(crate) fn turned<'a>(alloc: Global, arrows: &[Arrow<'a>]) -> Result<Vec<Arrow<'a>>, AllocError>
    ensures { GivesArrows result (all_turned (arrows_seen arrows.now)) }
{
    let mut turned = Vec::with_capacity(alloc, arrows.len())?;
    for arrow in arrows {
        turned.push(Arrow {
            from: arrow.to,
            to: arrow.from,
        })?;
    }
    Ok(turned)
}

/// The texts where these arrows end, in the order of the arrows.
pub(crate) fn ends<'a>(alloc: Global, arrows: &[Arrow<'a>]) -> Result<Vec<&'a str>, AllocError>
    ensures { LendsTexts result (ends_of (arrows_seen arrows.now)) }
{
    let mut ends = Vec::with_capacity(alloc, arrows.len())?;
    for arrow in arrows {
        ends.push(arrow.to)?;
    }
    Ok(ends)
}

/// The texts where the arrows to the text `goal` begin.
pub(crate) fn beginnings<'a>(
    alloc: Global,
    arrows: &[Arrow<'a>],
    goal: &str,
) -> Result<Vec<&'a str>, AllocError>
    ensures { LendsTexts result (next_texts (all_turned (arrows_seen arrows.now)) goal.now) }
{
    let mut beginnings = Vec::new(alloc);
    for arrow in arrows {
        if goal == arrow.to {
            beginnings.push(arrow.from)?;
        }
    }
    Ok(beginnings)
}
