//! Real refusals of memory and of a statement, for cases of what must pass them on.
use crate::answer::Trouble;
use mk_paths::FilesFault;
use refusals::OutOfMemory;
use sql_facts::Sqlite;
use sqlite::{Connection, Error};
use std::alloc::Global;

/// A real refusal of memory for cases, by a growth that can't be had. It is `NoCase` if it can be had.
pub fn no_memory(alloc: Global) -> Result<OutOfMemory, Trouble> {
    match Vec::<u8>::with_capacity(alloc, usize::MAX) {
        Ok(_had) => Err(Trouble::NoCase),
        Err(error) => Ok(OutOfMemory::from(error)),
    }
}

/// A real refusal of a statement for cases: the fault of files whose database refuses a statement that can't
/// run.
pub fn no_statement(alloc: Global) -> FilesFault {
    match run_no_statement(alloc) {
        Ok(()) => FilesFault::of_statement::<Sqlite>(&Error::InvalidQuery),
        Err(error) => FilesFault::of_statement::<Sqlite>(&error),
    }
}

/// Runs a statement in a database that refuses it, for cases that need a real refusal.
fn run_no_statement(alloc: Global) -> Result<(), Error> {
    let mut conn = Connection::open_in_memory(alloc)?;
    conn.execute_batch("no statement")
}
