//! Cases of tenants' stores: calls in a row, and changes that are stopped at every step.
use crate::MOST_LIMITS;
use crate::changes::{Change, file_answer, put, settings_answer};
use case_lines::{Answer, Trouble, as_number};
use make_cases::given_name;
use mk_paths::Name;
use std::alloc::Global;
use std::num::NonZeroUsize;
use tenant_store::TenantStore;

/// How many tenants the cases of stores have.
const TENANTS: usize = 4;

/// How many contents each store keeps in memory: fewer than the cases read.
const CONTENTS: usize = 2;

/// The line `empty stores` of a case of stores: the stores of four tenants.
pub fn empty(alloc: Global) -> Result<Vec<TenantStore>, Trouble> {
    let contents = NonZeroUsize::new(CONTENTS).unwrap_or(NonZeroUsize::MIN);
    let mut stores = Vec::new(alloc);
    for _ in 0..TENANTS {
        stores.push(TenantStore::open_in_memory(alloc, contents)?)?;
    }
    Ok(stores)
}

/// What a call of a tenant's store gives in a case of stores: a line `store CALL TENANT GIVEN..`. The error
/// is `NoCase` if the line is in no form of a case, and `Memory` if memory runs out.
pub fn answer(
    alloc: Global,
    stores: &mut [TenantStore],
    call: &str,
    given: &[Vec<u8>],
) -> Result<Answer, Trouble> {
    let [tenant, given @ ..] = given else {
        return Err(Trouble::NoCase);
    };
    let tenant = usize::try_from(as_number(tenant)?).map_err(|_| Trouble::NoCase)?;
    let Some(store) = stores.get_mut(tenant) else {
        return Err(Trouble::NoCase);
    };
    match call {
        "fill" => fill(alloc, store, given),
        "get" => file_answer(alloc, store, &one_name(alloc, given)?),
        "settings" if given.is_empty() => settings_answer(alloc, store),
        "put stopped" => stopped(alloc, store, &Change::read(alloc, "put", given)?),
        "remove stopped" => stopped(alloc, store, &Change::read(alloc, "remove", given)?),
        "path stopped" => stopped(alloc, store, &Change::read(alloc, "path", given)?),
        "profile stopped" => stopped(alloc, store, &Change::read(alloc, "profile", given)?),
        _ => {
            let change = Change::read(alloc, call, given)?;
            Ok(Answer::of_word(alloc, change.make(alloc, store)?))
        }
    }
}

/// The one name of a file that a call of a case of stores is given.
fn one_name(alloc: Global, given: &[Vec<u8>]) -> Result<Name, Trouble> {
    let [name] = given else {
        return Err(Trouble::NoCase);
    };
    given_name(alloc, name)
}

/// The call `store fill TENANT N BYTES` of a case of stores: puts so many files of these bytes into the
/// store. It gives how many were stored before the first that wasn't, and the answer to that one.
fn fill(alloc: Global, store: &mut TenantStore, given: &[Vec<u8>]) -> Result<Answer, Trouble> {
    let [count, bytes] = given else {
        return Err(Trouble::NoCase);
    };
    let count = as_number(count)?;
    for stored in 0..count {
        let name = given_name(alloc, format!(in alloc; "/fill/file-{stored}")?.as_bytes())?;
        let told = put(store, &name, bytes)?;
        if told != "stored" {
            return Ok(filled(alloc, stored, told));
        }
    }
    Ok(filled(alloc, count, "stored"))
}

/// The answer of a case that fills a store: how many files were stored, and the answer after them.
pub fn filled(alloc: Global, stored: u64, told: &str) -> Answer {
    let mut answer = Answer::new(alloc);
    answer.number(stored);
    answer.word(told);
    answer
}

/// The call `store CHANGE stopped TENANT ..` of a case of stores: the change under a limit of 1, 2, 3 ..
/// steps until it isn't stopped. It gives whether each change that was stopped left the file or the settings
/// as they were, and the answer to the last.
fn stopped(alloc: Global, store: &mut TenantStore, change: &Change) -> Result<Answer, Trouble> {
    let was = change.subject(alloc, store)?;
    let mut is_kept = true;
    for limit in 1..MOST_LIMITS {
        store.limit_steps(Some(limit));
        let told = change.make(alloc, store)?;
        store.limit_steps(None);
        if told != "Store" {
            return Ok(stops_answer(alloc, limit, is_kept, told));
        }
        is_kept = is_kept && change.subject(alloc, store)?.is_same(&was)?;
    }
    Err(Trouble::NoCase)
}

/// The answer of a case whose changes of a store are stopped: `never` if the first call wasn't stopped, else
/// `kept` or `changed`; and the answer to the last call.
pub fn stops_answer(alloc: Global, limit: u64, is_kept: bool, told: &str) -> Answer {
    let mut answer = Answer::of_word(
        alloc,
        match (limit, is_kept) {
            (1, _) => "never",
            (_, true) => "kept",
            (_, false) => "changed",
        },
    );
    answer.word(told);
    answer
}
