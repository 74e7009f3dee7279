//! Which of SQLite's errors say that memory ran out.
use refusals::{Database, Library};
use sqlite::{Error, ErrorCode};

/// SQLite as the stores use it. There are no values of it: it stands for the errors of its statements.
pub enum Sqlite {}

impl Library for Sqlite {
    ghost use Rattle.sql_facts.specs.Refused.{IsForMemory};

    type Error = Error;

    ghost for_memory = { IsForMemory };

    /// Whether this error of SQLite says that memory ran out.
    fn is_for_memory(error: &Error) -> bool {
        matches!(error, Error::SqliteFailure(ErrorCode::OutOfMemory))
    }
}

impl Database for Sqlite {}
