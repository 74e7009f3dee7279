//! A candidate of a query: a package that is looked at, and whether it meets conditions.
ghost use Rattle.std.specs.Prelude.{◌≡◌, map, string_bytes};
ghost use Rattle.std.specs.List.{list_any};
ghost use Rattle.std.specs.Str.{bytes_eq};
ghost use Rattle.pkg_name.specs.Order.{version_cmp};
ghost use Rattle.ports_query.specs.Conditions.{condition_seen};
ghost use Rattle.ports_query.specs.Candidate as meets;
ghost use Rattle.ports_query.specs.Candidate.{GivesFieldText, TellsIf, candidate_meets, candidate_meets_all};

use crate::conditions::{Condition, ListField, TextField};
use crate::operators::{Bound, OperatorSign};
use pkg_name::Version;
use port_rules::{Package, PortRecord};
use std::alloc::{AllocError, Global};

/// A candidate of a query: a package that is looked at, with its port and the port's canonical path.
#[derive(Clone, Copy)]
pub(crate) struct Candidate<'a> {
    pub(crate) path: &'a str,
    pub(crate) port: &'a PortRecord,
    pub(crate) found: &'a Package,
}

/// Whether a candidate, a package, meets all conditions of a query.
pub(crate) fn meets_all(
    alloc: Global,
    conditions: &[Condition],
    candidate: Candidate<'_>,
) -> Result<bool, AllocError>
    ensures { TellsIf result (candidate_meets_all candidate.entry conditions.now) }
{
    for condition in conditions {
        if !meets(alloc, condition, candidate)? {
            return Ok(false);
        }
    }
    Ok(true)
}

/// Whether a candidate, a package, meets a condition of a query.
fn meets(alloc: Global, condition: &Condition, candidate: Candidate<'_>) -> Result<bool, AllocError>
    ensures { TellsIf result (candidate_meets candidate.entry (condition_seen condition.now)) }
{
    match condition {
        Condition::OnText(field, sign, value) => {
            let text = text_of(alloc, *field, candidate)?;
            Ok(text_meets(*sign, value.as_str(), text.as_str()))
        }
        Condition::OnTexts(field, sign, value) => Ok(texts_meet(
            *sign,
            value.as_str(),
            texts_of(*field, candidate.port),
        )),
        Condition::OnVersion(bound, version) => Ok(bound_meets(
            *bound,
            candidate.found.name().version(),
            version,
        )),
    }
}

/// A text of a candidate, of the package or of its port. The package's full name is made, and each other text
/// is lent.
#[derive(Drop)]
enum FieldText<'a> {
    Lent(&'a str),
    Made(String),
}

impl FieldText<'_> {
    /// The text of the candidate's field.
    fn as_str(&self) -> &str
        ensures { result.now ≡ meets.text_seen self.now }
    {
        match self {
            FieldText::Lent(text) => text,
            FieldText::Made(text) => text.as_str(),
        }
    }
}

/// The text of a candidate's field, of the package or of its port.
fn text_of<'a>(
    alloc: Global,
    field: TextField,
    candidate: Candidate<'a>,
) -> Result<FieldText<'a>, AllocError>
    ensures { GivesFieldText result field candidate.entry }
{
    let Candidate { path, port, found } = candidate;
    let lent = match field {
        TextField::Path => path,
        TextField::Name => return Ok(FieldText::Made(found.name().text(alloc)?)),
        TextField::Stem => found.name().stem(),
        TextField::Version => found.name().version().as_str(),
        TextField::Maintainer => port.maintainer(),
        TextField::Comment => found.comment(),
    };
    Ok(FieldText::Lent(lent))
}

/// The texts of a candidate's field: the categories of the port, or its chosen flavors.
fn texts_of(field: ListField, port: &PortRecord) -> &[String]
    ensures { map string_bytes result.now ≡ meets.texts_of_field field port.now }
{
    match field {
        ListField::Category => port.categories(),
        ListField::Flavor => port.flavors().chosen(),
    }
}

/// Whether the text of a candidate's field meets the sign and the value of a condition.
fn text_meets(sign: OperatorSign, value: &str, text: &str) -> bool
    ensures { result ≡ meets.text_meets sign value.now text.now }
{
    match sign {
        OperatorSign::Is => text == value,
        OperatorSign::IsNot => text != value,
        OperatorSign::Has => has_part(text, value),
    }
}

/// Whether the texts of a candidate's field meet the sign and the value of a condition.
fn texts_meet(sign: OperatorSign, value: &str, texts: &[String]) -> bool
    ensures { result ≡ meets.texts_meet sign value.now (map string_bytes texts.now) }
{
    match sign {
        OperatorSign::Is => some_is(texts, value),
        OperatorSign::IsNot => !some_is(texts, value),
        OperatorSign::Has => some_has_part(texts, value),
    }
}

/// Whether a candidate meets a condition since some text of its field is the condition's value.
fn some_is(texts: &[String], value: &str) -> bool
    ensures { result ≡ list_any (λ text. bytes_eq (string_bytes text) value.now) texts.now }
{
    texts.iter().any(|text| text.as_str() == value)
}

/// Whether a candidate meets a condition since some text of its field has the condition's value as a part.
fn some_has_part(texts: &[String], value: &str) -> bool
    ensures { result ≡ list_any (λ text. meets.has_part value.now (string_bytes text)) texts.now }
{
    texts.iter().any(|text| has_part(text.as_str(), value))
}

/// Whether the value of a condition is somewhere in a text of a candidate.
fn has_part(text: &str, part: &str) -> bool
    ensures { result ≡ meets.has_part part.now text.now }
{
    text.contains(part)
}

/// Whether the version of a candidate meets the bound that the version in a condition sets.
fn bound_meets(bound: Bound, version: &Version, other: &Version) -> bool
    ensures { result ≡ meets.bound_meets bound (version_cmp version.now other.now) }
{
    match bound {
        Bound::Below => *version < *other,
        Bound::AtLeast => *version >= *other,
    }
}
