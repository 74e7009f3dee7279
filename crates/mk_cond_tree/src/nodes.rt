//! The tree of a condition: conjunctions and terms.

use crate::tokens::{Call, Comparison, Side};
use mk_text::Span;

/// A condition: it holds if one of its conjunctions does.
#[derive(Debug, Drop)]
#[cycle(tree)]
pub struct Condition {
    /// The first of them.
    pub first: Conjunction,
    /// The later ones, each after a `||`.
    pub more: Vec<Conjunction>,
}

/// A part of a condition that holds if all its terms do.
#[derive(Debug, Drop)]
#[cycle(tree)]
pub struct Conjunction {
    /// The first of them.
    pub first: Term,
    /// The later ones, each after a `&&`.
    pub more: Vec<Term>,
}

/// A term of a condition.
#[derive(Debug, Drop)]
#[cycle(tree)]
pub enum Term {
    /// `!` and the term that it negates.
    Not(Box<Term>),
    /// A condition in parentheses.
    Group(Box<Condition>),
    /// A call, and the place of its argument.
    Call(Call, Span),
    /// Two sides compared.
    Compare(Side, Comparison, Side),
    /// A side alone.
    Side(Side),
}
