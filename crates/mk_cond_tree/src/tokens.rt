//! The tokens that a condition is made of: signs, sides and calls.

use mk_text::Span;

/// How two sides are compared.
#[derive(Debug, Clone, Copy, PartialEq, Eq)]
pub enum Comparison {
    /// `==`
    Equal,
    /// `!=`
    Unequal,
    /// `<`
    Less,
    /// `<=`
    AtMost,
    /// `>`
    Greater,
    /// `>=`
    AtLeast,
}

/// What a call asks of its argument.
#[derive(Debug, Clone, Copy, PartialEq, Eq)]
pub enum Call {
    /// `defined`: whether a variable is defined.
    Defined,
    /// `empty`: whether a value has no word.
    Empty,
    /// `exists`: whether a file exists.
    Exists,
    /// `make`: whether a target was asked for.
    Make,
    /// `target`: whether a target was defined.
    Target,
}

/// A side of a comparison, or a side alone, as the place of its text.
#[derive(Debug, Clone, Copy, PartialEq, Eq)]
pub enum Side {
    /// What is between double quotes; it may be empty.
    Quoted(Span),
    /// A word without quotes, at least one byte.
    Bare(Span),
}

/// A token of a condition.
#[derive(Debug, Clone, Copy, PartialEq, Eq)]
pub enum Token {
    /// `||`
    Or,
    /// `&&`
    And,
    /// `!`
    Not,
    /// `(`
    Left,
    /// `)`
    Right,
    /// The sign of a comparison.
    Compare(Comparison),
    /// A side.
    Side(Side),
    /// A call, and the place of its argument, which may be empty.
    Call(Call, Span),
}
