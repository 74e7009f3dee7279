//! The operators of a query's conditions, as `=` and `<`.
ghost use Rattle.std.specs.Prelude.{◌≡◌, ◌≤◌, length, is_some};
ghost use Rattle.ports_query.specs.Conditions.{FindsOperator, operator_at, plain_length};

/// How a text of a field, or one of several, is compared with the value of a condition.
#[derive(Clone, Copy, Debug)]
pub(crate) enum OperatorSign {
    /// `=`: it is the value.
    Is,
    /// `!=`: it isn't the value.
    IsNot,
    /// `~`: the value is a part of it.
    Has,
}

/// How the version of a package is compared with the version in a condition.
#[derive(Clone, Copy, Debug)]
pub(crate) enum Bound {
    /// `<`
    Below,
    /// `>=`
    AtLeast,
}

/// An operator of a query's condition.
#[derive(Clone, Copy, Debug)]
pub(crate) enum Operator {
    /// One for any field.
    Plain(OperatorSign),
    /// One for the version alone.
    Ordered(Bound),
}

/// The operator of a condition that a text begins with, and what follows it. `None` if the text begins with
/// no operator.
pub(crate) fn operator_at(text: &str) -> Option<(Operator, &str)>
    ensures { FindsOperator result (operator_at text.now) }
{
    if let Some(behind) = text.strip_prefix("!=") {
        return Some((Operator::Plain(OperatorSign::IsNot), behind));
    }
    if let Some(behind) = text.strip_prefix(">=") {
        return Some((Operator::Ordered(Bound::AtLeast), behind));
    }
    if let Some(behind) = text.strip_prefix("=") {
        return Some((Operator::Plain(OperatorSign::Is), behind));
    }
    if let Some(behind) = text.strip_prefix("~") {
        return Some((Operator::Plain(OperatorSign::Has), behind));
    }
    match text.strip_prefix("<") {
        Some(behind) => Some((Operator::Ordered(Bound::Below), behind)),
        None => None,
    }
}

/// How many bytes of a condition's text precede the first place where an operator begins: all of them if none
/// begins.
pub(crate) fn plain_length(text: &[u8]) -> usize
    ensures length { result ≡ plain_length text.now }
    ensures inside { result ≤ length text.now }
{
    for at in 0..text.len() {
        if begins_with_operator(&text[at..]) {
            return at;
        }
    }
    text.len()
}

/// Whether a text begins with an operator of a condition.
fn begins_with_operator(text: &[u8]) -> bool
    ensures { result ≡ is_some (operator_at text.now) }
{
    text.starts_with(b"!=")
        || text.starts_with(b">=")
        || text.starts_with(b"=")
        || text.starts_with(b"~")
        || text.starts_with(b"<")
}
