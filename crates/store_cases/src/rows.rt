//! Cases of the rows of an index in their store, in the table of today and in that of the release before.
use crate::MOST_LIMITS;
use crate::changes::given_profile;
use crate::stores::stops_answer;
use case_lines::{Answer, Trouble, as_text};
use index_store::{IndexStore, PathRows};
use mk_paths::FilesFault;
use std::alloc::Global;
use text_parts::put_in_order;

/// The line `empty rows` of a case of rows: a store without a row.
pub fn empty(alloc: Global) -> Result<IndexStore, Trouble> {
    Ok(IndexStore::open_in_memory(alloc)?)
}

/// What a call of a case of rows gives: a line `rows CALL GIVEN..`. The error is `NoCase` if the line is in
/// no form of a case, and `Memory` if memory runs out.
pub fn answer(
    alloc: Global,
    rows: &mut IndexStore,
    call: &str,
    given: &[Vec<u8>],
) -> Result<Answer, Trouble> {
    match call.strip_suffix(" stopped") {
        Some(call) => stopped(alloc, rows, call, given),
        None if call == "list" && given.is_empty() => list(alloc, rows),
        None => Ok(Answer::of_word(alloc, change(alloc, rows, call, given)?)),
    }
}

/// What a change of the stored rows tells in a case of rows: `put`, `marked` or `taken`; or `Store`.
fn change(
    alloc: Global,
    rows: &mut IndexStore,
    call: &str,
    given: &[Vec<u8>],
) -> Result<&'static str, Trouble> {
    let (told, so) = match (call, given) {
        ("put", [path, number, text]) => (
            rows.put(as_text(path)?, given_profile(number)?, text),
            "put",
        ),
        ("put earlier", [path, text]) => (rows.put_earlier(as_text(path)?, text), "put"),
        ("mark all", []) => (rows.mark_all(), "marked"),
        ("mark", paths) => (rows.mark(&texts(alloc, paths)?), "marked"),
        ("take out", paths) => (rows.take_out(&texts(alloc, paths)?), "taken"),
        _ => return Err(Trouble::NoCase),
    };
    match told {
        Ok(()) => Ok(so),
        Err(FilesFault::Store(_)) => Ok("Store"),
        Err(FilesFault::Memory(refused)) => Err(Trouble::Memory(refused)),
    }
}

/// The paths that a case of rows gives, as texts.
fn texts(alloc: Global, given: &[Vec<u8>]) -> Result<Vec<String>, Trouble> {
    let mut texts = Vec::new(alloc);
    for bytes in given {
        texts.push(String::from_str(alloc, as_text(bytes)?)?)?;
    }
    Ok(texts)
}

/// The call `rows list` of a case of rows: for each path, in order, whether its row is `fresh` or `stale`,
/// and its bytes; `none` if there is none.
fn list(alloc: Global, rows: &mut IndexStore) -> Result<Answer, Trouble> {
    let stored = rows.rows(alloc)?;
    let mut paths = rows.paths(alloc)?;
    put_in_order(&mut paths);
    if stored.is_empty() && paths.is_empty() {
        return Ok(Answer::of_word(alloc, "none"));
    }
    let mut answer = Answer::new(alloc);
    for path in &paths {
        answer.text(path.as_bytes());
        for row in &stored {
            if row.path.as_str() == path.as_str() {
                answer.word(if row.is_stale { "stale" } else { "fresh" });
                answer.text(row.text.as_slice());
            }
        }
    }
    Ok(answer)
}

/// The call `rows CHANGE stopped ..` of a case of rows: the change under a limit of 1, 2, 3 .. steps until it
/// isn't stopped. It gives whether each change that was stopped kept all rows as they were, and what the last
/// told.
fn stopped(
    alloc: Global,
    rows: &mut IndexStore,
    call: &str,
    given: &[Vec<u8>],
) -> Result<Answer, Trouble> {
    let was = list(alloc, rows)?;
    let mut is_kept = true;
    for limit in 1..MOST_LIMITS {
        rows.limit_steps(Some(limit));
        let told = change(alloc, rows, call, given)?;
        rows.limit_steps(None);
        if told != "Store" {
            return Ok(stops_answer(alloc, limit, is_kept, told));
        }
        is_kept = is_kept && list(alloc, rows)?.is_same(&was)?;
    }
    Err(Trouble::NoCase)
}
