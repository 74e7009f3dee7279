//! The conditions of a query, each on a field of a package or of its port.
ghost use Rattle.std.specs.Prelude.{◌≡◌};
ghost use Rattle.pkg_name.specs.Version.{is_version};
ghost use Rattle.text_parts.specs.Cuts.{now_all};
ghost use Rattle.ports_query.specs.Conditions.{condition_of, condition_with, conditions_of, field_named};
ghost use Rattle.ports_query.specs.Conditions.{ReadsCondition, ReadsConditions};
ghost use Rattle.ports_query.specs.declared.operators.Operator.TheVariants.{Plain, Ordered};

use crate::operators::{Bound, Operator, OperatorSign, operator_at, plain_length};
use pkg_name::{Version, VersionFault};
use std::alloc::{AllocError, Global};

/// A field of a condition that is one text, of a package or of its port.
#[derive(Clone, Copy, Debug)]
pub(crate) enum TextField {
    /// The canonical path of the port.
    Path,
    /// The package's full name.
    Name,
    /// What precedes the version in the name.
    Stem,
    /// The version in the name.
    Version,
    /// Who maintains the port.
    Maintainer,
    /// The package's comment.
    Comment,
}

/// A field of a condition that is several texts of a port.
#[derive(Clone, Copy, Debug)]
pub(crate) enum ListField {
    /// Its categories.
    Category,
    /// Its flavors that are chosen.
    Flavor,
}

/// The field that a condition is on.
#[derive(Clone, Copy, Debug)]
pub(crate) enum Field {
    /// One text.
    Text(TextField),
    /// Several texts.
    Texts(ListField),
}

/// A condition on a package of a port.
#[derive(Debug, Drop)]
pub(crate) enum Condition {
    /// On a text, by a value.
    OnText(TextField, OperatorSign, String),
    /// On several texts, by a value.
    OnTexts(ListField, OperatorSign, String),
    /// On the version, by another version.
    OnVersion(Bound, Version),
}

impl Condition {
    /// The condition of a query that a text is, if it is one.
    #[tactic(auto, unfolding(crate::specs::Conditions::condition_of))]
    pub(crate) fn read(alloc: Global, text: &str) -> Result<Option<Condition>, AllocError>
        ensures { ReadsCondition result (condition_of text.now) }
    {
        let (name, rest) = text.split_at(plain_length(text.as_bytes()));
        match operator_at(rest) {
            Some((operator, value)) => Condition::of(alloc, name, operator, value),
            None => Ok(None),
        }
    }

    /// The condition of a query that a field's name, an operator and a value make, if they make one.
    fn of(
        alloc: Global,
        name: &str,
        operator: Operator,
        value: &str,
    ) -> Result<Option<Condition>, AllocError>
        ensures { ReadsCondition result (condition_with name.now operator value.now) }
    {
        match operator {
            Operator::Plain(sign) => Condition::plain(alloc, name, sign, value),
            Operator::Ordered(bound) => Condition::ordered(alloc, name, bound, value),
        }
    }

    /// The condition that compares a field of a package or its port with a value by this sign. `None` if no
    /// field has this name.
    fn plain(
        alloc: Global,
        name: &str,
        sign: OperatorSign,
        value: &str,
    ) -> Result<Option<Condition>, AllocError>
        ensures { ReadsCondition result (condition_with name.now (Plain sign) value.now) }
    {
        let Some(field) = field_named(name) else {
            return Ok(None);
        };
        let value = String::from_str(alloc, value)?;
        match field {
            Field::Text(field) => Ok(Some(Condition::OnText(field, sign, value))),
            Field::Texts(field) => Ok(Some(Condition::OnTexts(field, sign, value))),
        }
    }

    /// The condition that compares the version of a package with a value by this bound. `None` if the name
    /// isn't `version`, or the value is no version.
    fn ordered(
        alloc: Global,
        name: &str,
        bound: Bound,
        value: &str,
    ) -> Result<Option<Condition>, AllocError>
        ensures { ReadsCondition result (condition_with name.now (Ordered bound) value.now) }
    {
        if name != "version" {
            return Ok(None);
        }
        match Version::read(alloc, value) {
            Ok(version) => Ok(Some(Condition::OnVersion(bound, version))),
            Err(VersionFault::NoVersion) => Ok(None),
            Err(VersionFault::Memory(refused)) => Err(refused.into()),
        }
    }
}

/// The conditions of a query that texts are, if each of them is one.
pub(crate) fn read_conditions(
    alloc: Global,
    texts: &[&str],
) -> Result<Option<Vec<Condition>>, AllocError>
    ensures { ReadsConditions result (conditions_of (now_all texts.now)) }
{
    let mut conditions = Vec::new(alloc);
    for text in texts {
        let Some(condition) = Condition::read(alloc, text)? else {
            return Ok(None);
        };
        conditions.push(condition)?;
    }
    Ok(Some(conditions))
}

/// The field of conditions that has this name, if there is one.
fn field_named(name: &str) -> Option<Field>
    ensures { result ≡ field_named name.now }
{
    match name {
        "path" => Some(Field::Text(TextField::Path)),
        "name" => Some(Field::Text(TextField::Name)),
        "stem" => Some(Field::Text(TextField::Stem)),
        "version" => Some(Field::Text(TextField::Version)),
        "maintainer" => Some(Field::Text(TextField::Maintainer)),
        "comment" => Some(Field::Text(TextField::Comment)),
        "category" => Some(Field::Texts(ListField::Category)),
        "flavor" => Some(Field::Texts(ListField::Flavor)),
        _ => None,
    }
}
