//! Queries of packages: conditions with semicolons between them.
ghost use Rattle.std.specs.Prelude.{◌≡◌, IfOk, IsErrOf, Some, None, map};
ghost use Rattle.ports_query.specs.Conditions.{condition_seen, query_conditions};

use crate::conditions::{Condition, read_conditions};
use crate::faults::QueryFault;
use std::alloc::Global;
use std::marker::Model;
use text_parts::split_at;

/// The most conditions of a query.
const MOST_CONDITIONS: usize = 8;

/// A query of packages: conditions, all of which a package must meet.
#[derive(Debug, Drop)]
pub struct Query {
    conditions: Vec<Condition>,
}

impl Model for Query {
    ghost use Rattle.std.specs.Prelude.{List};
    ghost use Rattle.ports_query.specs.Conditions.{ConditionValue, conditions_seen};

    ghost Value = { List ConditionValue };

    ghost view = { λ query. conditions_seen query.conditions };
}

impl Query {
    /// The query of packages that a text is: up to eight conditions with semicolons between them. An empty
    /// text has none.
    ///
    /// A condition is a field, an operator and a value. The operator is the one that begins first of
    /// `!=`, `>=`, `=`, `~` and `<`. The fields are `path`, `name`, `stem`, `version`, `maintainer`,
    /// `comment`, `category` and `flavor`.
    ///
    /// `=` asks that the field is the value, `!=` that it isn't, and `~` that the value is a part of it. Of
    /// the categories, and of the flavors that are chosen, `=` asks that some is the value, `!=` that none
    /// is, and `~` that the value is a part of some. `<` and `>=` are for `version` alone, in the order of
    /// versions, with a value that is a version.
    ///
    /// Any other text gives `BadQuery`. If memory runs out, it gives `Memory`.
    pub fn read(alloc: Global, text: &str) -> Result<Query, QueryFault>
        ensures ok { IfOk result (λ query. query_conditions text.now ≡ Some query) }
        ensures bad { IsErrOf result QueryFault.BadQuery → query_conditions text.now ≡ None }
    {
        if text.is_empty() {
            return Ok(Query {
                conditions: Vec::new(alloc),
            });
        }
        let parts = split_at(alloc, text, ';')?;
        if parts.len() > MOST_CONDITIONS {
            return Err(QueryFault::BadQuery);
        }
        match read_conditions(alloc, &parts)? {
            Some(conditions) => Ok(Query { conditions }),
            None => Err(QueryFault::BadQuery),
        }
    }

    /// The conditions of the query, in the order of its text.
    pub(crate) fn conditions(&self) -> &[Condition]
        ensures { map condition_seen result.now ≡ self.now }
    {
        self.conditions.as_slice()
    }
}
