//! All texts that are reached over arrows, and all that reach a text.
ghost use Rattle.std.specs.Prelude.{◌≡◌};
ghost use Rattle.text_parts.specs.Order.{in_order};
ghost use Rattle.text_parts.specs.Cuts.{now_all};
ghost use Rattle.text_graph.specs.Arrows.{arrows_seen};
ghost use Rattle.text_graph.specs.Listed.{reached_list, reaching_list};
ghost use Rattle.text_graph.specs.SearchResults.{LendsTexts};

use crate::arrow::{Arrow, beginnings, ends, turned};
use crate::text_search::search;
use std::alloc::{AllocError, Global};

/// All texts that are reached over one or more arrows between texts: the first arrow is one of `first`, and
/// each other is one of `arrows`. The texts are in the order of their bytes, each once. It fails only if
/// memory runs out.
pub fn reached<'a>(
    alloc: Global,
    first: &[Arrow<'a>],
    arrows: &[Arrow<'a>],
) -> Result<Vec<&'a str>, AllocError>
    ensures { LendsTexts result (reached_list (arrows_seen first.now) (arrows_seen arrows.now)) }
{
    let starts = ends(alloc, first)?;
    let mut texts = search(alloc, &starts, arrows)?;
    put_in_order(&mut texts);
    Ok(texts)
}

/// All texts from which one or more of `arrows` lead to `goal`, in the order of their bytes, each once.
/// It fails only if memory runs out.
pub fn reaching<'a>(
    alloc: Global,
    arrows: &[Arrow<'a>],
    goal: &str,
) -> Result<Vec<&'a str>, AllocError>
    ensures { LendsTexts result (reaching_list (arrows_seen arrows.now) goal.now) }
{
    let starts = beginnings(alloc, arrows, goal)?;
    let back = turned(alloc, arrows)?;
    let mut texts = search(alloc, &starts, &back)?;
    put_in_order(&mut texts);
    Ok(texts)
}

/// Puts the texts that were reached in the order of their bytes, each once.
fn put_in_order(texts: &mut Vec<&str>)
    ensures { now_all texts.new.items ≡ in_order (now_all texts.old.items) }
{
    texts.sort_unstable();
    texts.dedup();
}
