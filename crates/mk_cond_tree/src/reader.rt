//! The tokens of a condition read into its tree.
ghost use Rattle.std.specs.Prelude.{◌≡◌, map, option_map, IfOk};
ghost use Rattle.mk_cond_tree.specs.Reader.{after_or, after_and, after_right, first_side, first_comparison};
ghost use Rattle.mk_cond_tree.specs.Reader.{side_term, negation_below, group_below, operands, read_not, read_and};
ghost use Rattle.mk_cond_tree.specs.Reader.{read_or, tree_of_tokens};
ghost use Rattle.mk_cond_tree.specs.Views.{condition_tree, conjunction_tree, term_tree, tokens_left, read_as_it_is, shown_read};

use crate::nodes::{Condition, Conjunction, Term};
use crate::tokens::{Comparison, Side, Token};
use std::alloc::{AllocError, Global};

/// What was read off the front of tokens, and what is left after it.
type Read<'t, T> = Option<(T, &'t [Token])>;

/// The tokens of a condition after a `||` that comes first.
fn after_or(tokens: &[Token]) -> Option<&[Token]>
    ensures { tokens_left result ≡ after_or tokens.now }
{
    match tokens.split_first() {
        Some((Token::Or, rest)) => Some(rest),
        _ => None,
    }
}

/// The tokens of a condition after a `&&` that comes first.
fn after_and(tokens: &[Token]) -> Option<&[Token]>
    ensures { tokens_left result ≡ after_and tokens.now }
{
    match tokens.split_first() {
        Some((Token::And, rest)) => Some(rest),
        _ => None,
    }
}

/// The tokens of a condition after a `)` that comes first.
fn after_right(tokens: &[Token]) -> Option<&[Token]>
    ensures { tokens_left result ≡ after_right tokens.now }
{
    match tokens.split_first() {
        Some((Token::Right, rest)) => Some(rest),
        _ => None,
    }
}

/// The side of a comparison that is the first token of a condition, and the tokens after it.
fn first_side(tokens: &[Token]) -> Read<'_, Side>
    ensures { read_as_it_is result ≡ first_side tokens.now }
{
    match tokens.split_first() {
        Some((Token::Side(side), rest)) => Some((*side, rest)),
        _ => None,
    }
}

/// The sign of a comparison that is the first token of a condition, and the tokens after it.
fn first_comparison(tokens: &[Token]) -> Read<'_, Comparison>
    ensures { read_as_it_is result ≡ first_comparison tokens.now }
{
    match tokens.split_first() {
        Some((Token::Compare(comparison), rest)) => Some((*comparison, rest)),
        _ => None,
    }
}

/// The tree of the condition that tokens begin with (conjunctions with `||` between them), and the tokens
/// after it.
#[cycle(reading)]
fn read_or(
    alloc: Global,
    tokens: &[Token],
    levels: usize,
) -> Result<Read<'_, Condition>, AllocError>
    ensures { IfOk result (λ read. shown_read condition_tree read ≡ read_or levels tokens.now) }
{
    let Some((first, rest)) = read_and(alloc, tokens, levels)? else {
        return Ok(None);
    };
    match later_ands(alloc, rest, levels)? {
        Some((more, left)) => Ok(Some((Condition { first, more }, left))),
        None => Ok(None),
    }
}

/// The conjunctions that a condition's tokens begin with, each after a `||`, and the tokens after them.
#[cycle(reading)]
fn later_ands(
    alloc: Global,
    tokens: &[Token],
    levels: usize,
) -> Result<Read<'_, Vec<Conjunction>>, AllocError>
    ensures { IfOk result (λ read. shown_read (λ more. map conjunction_tree more.items) read
        ≡ operands after_or (read_and levels) tokens.now) }
{
    let mut more = Vec::new(alloc);
    let mut rest = tokens;
    while let Some(behind) = after_or(rest) {
        let Some((next, left)) = read_and(alloc, behind, levels)? else {
            return Ok(None);
        };
        more.push(next)?;
        rest = left;
    }
    Ok(Some((more, rest)))
}

/// The conjunction that a condition's tokens begin with (terms with `&&` between them), and the tokens after
/// it.
#[cycle(reading)]
fn read_and(
    alloc: Global,
    tokens: &[Token],
    levels: usize,
) -> Result<Read<'_, Conjunction>, AllocError>
    ensures { IfOk result (λ read. shown_read conjunction_tree read ≡ read_and levels tokens.now) }
{
    let Some((first, rest)) = read_not(alloc, tokens, levels)? else {
        return Ok(None);
    };
    match later_nots(alloc, rest, levels)? {
        Some((more, left)) => Ok(Some((Conjunction { first, more }, left))),
        None => Ok(None),
    }
}

/// The terms that a condition's tokens begin with, each after a `&&`, and the tokens after them.
#[cycle(reading)]
fn later_nots(
    alloc: Global,
    tokens: &[Token],
    levels: usize,
) -> Result<Read<'_, Vec<Term>>, AllocError>
    ensures { IfOk result (λ read. shown_read (λ more. map term_tree more.items) read
        ≡ operands after_and (read_not levels) tokens.now) }
{
    let mut more = Vec::new(alloc);
    let mut rest = tokens;
    while let Some(behind) = after_and(rest) {
        let Some((next, left)) = read_not(alloc, behind, levels)? else {
            return Ok(None);
        };
        more.push(next)?;
        rest = left;
    }
    Ok(Some((more, rest)))
}

/// The term that a condition's tokens begin with (`!`, a group, a call, a comparison or a side), and the
/// tokens after it.
#[cycle(reading)]
fn read_not(alloc: Global, tokens: &[Token], levels: usize) -> Result<Read<'_, Term>, AllocError>
    ensures { IfOk result (λ read. shown_read term_tree read ≡ read_not levels tokens.now) }
{
    match tokens.split_first() {
        Some((Token::Not, rest)) => negation(alloc, rest, levels),
        Some((Token::Left, rest)) => group(alloc, rest, levels),
        Some((Token::Call(call, argument), rest)) => Ok(Some((Term::Call(*call, *argument), rest))),
        Some((Token::Side(side), rest)) => Ok(side_term(*side, rest)),
        _ => Ok(None),
    }
}

/// The term of a condition after a `!`, negated, and the tokens after it. It is `None` if no more levels are
/// left.
#[cycle(reading)]
fn negation(alloc: Global, tokens: &[Token], levels: usize) -> Result<Read<'_, Term>, AllocError>
    ensures { IfOk result (λ read. shown_read term_tree read ≡ negation_below levels tokens.now) }
{
    if levels == 0 {
        return Ok(None);
    }
    match read_not(alloc, tokens, levels - 1)? {
        Some((term, rest)) => Ok(Some((Term::Not(Box::new(alloc, term)?), rest))),
        None => Ok(None),
    }
}

/// The condition after a parenthesis, as a term, if the parenthesis closes, and the tokens after it. It is
/// `None` if no more levels are left.
#[cycle(reading)]
fn group(alloc: Global, tokens: &[Token], levels: usize) -> Result<Read<'_, Term>, AllocError>
    ensures { IfOk result (λ read. shown_read term_tree read ≡ group_below levels tokens.now) }
{
    if levels == 0 {
        return Ok(None);
    }
    let Some((condition, rest)) = read_or(alloc, tokens, levels - 1)? else {
        return Ok(None);
    };
    match after_right(rest) {
        Some(left) => Ok(Some((Term::Group(Box::new(alloc, condition)?), left))),
        None => Ok(None),
    }
}

/// The term of a condition that begins with this side: compared with the side after a sign that the tokens
/// begin with, or alone.
fn side_term(left: Side, tokens: &[Token]) -> Read<'_, Term>
    ensures { shown_read term_tree result ≡ side_term left tokens.now (first_comparison tokens.now) }
{
    let Some((comparison, rest)) = first_comparison(tokens) else {
        return Some((Term::Side(left), tokens));
    };
    match first_side(rest) {
        Some((right, behind)) => Some((Term::Compare(left, comparison, right), behind)),
        None => None,
    }
}

/// The tree of a condition's tokens, with at most this many `!` and parentheses one inside another; `None` if
/// they have none.
pub(crate) fn read(
    alloc: Global,
    tokens: &[Token],
    levels: usize,
) -> Result<Option<Condition>, AllocError>
    ensures { IfOk result (λ read. option_map condition_tree read ≡ tree_of_tokens levels tokens.now) }
{
    match read_or(alloc, tokens, levels)? {
        Some((condition, [])) => Ok(Some(condition)),
        _ => Ok(None),
    }
}
