//! The service of worked cases, and what it is after a script.
use case_lines::{Answer, Trouble, as_number};
use ports_core::{Config, Service, Transcript, replay};
use portsd_text::read_script;
use std::alloc::Global;
use stored_tenants::StoredTenants;

/// The service of worked cases, over worlds in one store.
pub type StoredService = Service<StoredTenants>;

/// The keys of the tenants that make case requests, by their numbers.
pub const KEYS: [&str; 2] = ["alpha", "beta"];

/// How many parses and evaluations the service for case requests keeps if a line doesn't say.
const SIZES: (u32, u32) = (256, 1024);

/// The lines `new service`, `new service PARSES EVALS` of a worked case: a service for the tenants 0 and 1,
/// with a cache of these sizes.
pub fn new_service(alloc: Global, given: &[Vec<u8>]) -> Result<StoredService, Trouble> {
    Service::new(alloc, config(alloc, given)?).map_err(|_| Trouble::NoCase)
}

/// The config of the service for case requests: the tenants 0 and 1, with a cache of these sizes.
pub fn config(alloc: Global, given: &[Vec<u8>]) -> Result<Config, Trouble> {
    let mut keys = Vec::new(alloc);
    for key in KEYS {
        keys.push(String::from_str(alloc, key)?)?;
    }
    let (parses, evals) = sizes(given)?;
    Ok(Config {
        keys,
        parses,
        evals,
    })
}

/// The sizes of the cache that a worked case gives to the service for case requests.
fn sizes(given: &[Vec<u8>]) -> Result<(u32, u32), Trouble> {
    match given {
        [] => Ok(SIZES),
        [parses, evals] => Ok((size(parses)?, size(evals)?)),
        _ => Err(Trouble::NoCase),
    }
}

/// One size of the cache that a worked case gives to the service for case requests.
fn size(given: &[u8]) -> Result<u32, Trouble> {
    let size = as_number(given)?;
    if size > u32::MAX as u64 {
        return Err(Trouble::NoCase);
    }
    Ok(size as u32)
}

/// The call `after SCRIPT at CONN TENANT` of a worked case: the service of one tenant with the key `alpha`
/// after a script. It gives the number of the next connection, the room and the pending bytes of the
/// connection CONN, and how many requests of the tenant wait.
pub fn after(alloc: Global, given: &[Vec<u8>]) -> Result<Answer, Trouble> {
    let [script, conn, tenant] = given else {
        return Err(Trouble::NoCase);
    };
    let (conn, tenant) = (as_number(conn)?, as_number(tenant)?);
    let service = replayed(alloc, script)?;
    let mut answer = Answer::new(alloc);
    answer.number(service.next_conn());
    answer.number(service.room(conn) as u64);
    answer.text(service.pending(conn));
    answer.number(service.waiting(tenant as usize) as u64);
    Ok(answer)
}

/// The service of a worked case with one tenant after a script.
fn replayed(alloc: Global, script: &[u8]) -> Result<StoredService, Trouble> {
    let mut input = script;
    let script = read_script(alloc, &mut input).map_err(|_| Trouble::NoCase)?;
    match replay(alloc, config_of_one(alloc)?, script.events.as_slice()) {
        Ok(Transcript { service, .. }) => Ok(service),
        Err(_) => Err(Trouble::NoCase),
    }
}

/// The config of the service of a worked case with one tenant, whose key is `alpha`.
pub fn config_of_one(alloc: Global) -> Result<Config, Trouble> {
    let key = String::from_str(alloc, "alpha")?;
    Ok(Config {
        keys: vec![in alloc; key]?,
        parses: 1,
        evals: 1,
    })
}

/// The service of a worked case with one tenant, whose key is `alpha`.
pub fn service_of_one(alloc: Global) -> Result<StoredService, Trouble> {
    Service::new(alloc, config_of_one(alloc)?).map_err(|_| Trouble::NoCase)
}
