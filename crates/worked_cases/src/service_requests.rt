//! The calls `service ..` of worked cases: requests to the service over its store, in a row, each on a
//! connection of its own.
use crate::plain_requests::reply_answer;
use crate::request_turns::{self, Counted, Limit, take_turns};
use crate::service::{KEYS, StoredService};
use case_lines::{Answer, Trouble, as_number, as_text};
use http::StatusCode;
use ports_core::{Event, Told};
use ports_http::{Method, Reply};
use std::alloc::Global;
use store_cases::{MOST_LIMITS, filled, stops_answer};

/// A case request: what a tenant asks the service in a worked case.
#[derive(Clone, Copy)]
pub struct CaseRequest<'a> {
    pub tenant: usize,
    method: Method,
    target: &'a str,
    body: &'a [u8],
}

impl<'a> CaseRequest<'a> {
    /// The case request that a line asks for: its tenant is a number, and its target a text.
    pub fn read(
        method: Method,
        tenant: &[u8],
        target: &'a [u8],
        body: &'a [u8],
    ) -> Result<CaseRequest<'a>, Trouble> {
        Ok(CaseRequest {
            tenant: as_number(tenant)? as usize,
            method,
            target: as_text(target)?,
            body,
        })
    }
}

/// What a call `service ..` of a worked case gives: what the service answers to case requests.
pub fn answer(
    alloc: Global,
    service: &mut StoredService,
    call: &str,
    given: &[Vec<u8>],
) -> Result<Answer, Trouble> {
    match call {
        "GET" => asked_answer(alloc, service, Method::Get, given),
        "PUT" => asked_answer(alloc, service, Method::Put, given),
        "DELETE" => asked_answer(alloc, service, Method::Delete, given),
        "units" => units_answer(alloc, service, given),
        "turns" | "turns stopped in" => request_turns::turns_answer(alloc, service, given),
        "jobs" => request_turns::jobs_answer(alloc, service, given),
        "job while" => request_turns::job_while_answer(alloc, service, given),
        "counts" => counts_answer(alloc, service, given),
        "fill" => fill(alloc, service, given),
        "PUT stopped by" => stopped(alloc, service, Method::Put, given),
        "DELETE stopped by" => stopped(alloc, service, Method::Delete, given),
        "GET stopped by" => stopped(alloc, service, Method::Get, given),
        "GET stopped longer than" => stopped_longer(alloc, service, given),
        "GET stopped at each turn after PUT" | "GET stopped at each turn after GET" => {
            request_turns::stopped_at_each(alloc, service, given)
        }
        _ => Err(Trouble::NoCase),
    }
}

/// The calls `service GET TENANT TARGET`, `service PUT TENANT TARGET BODY`, `service DELETE TENANT TARGET` of
/// a worked case: the service's reply to the case request.
fn asked_answer(
    alloc: Global,
    service: &mut StoredService,
    method: Method,
    given: &[Vec<u8>],
) -> Result<Answer, Trouble> {
    let request = match (method, given) {
        (Method::Put, [tenant, target, body]) => CaseRequest::read(method, tenant, target, body)?,
        (Method::Get | Method::Delete, [tenant, target]) => {
            CaseRequest::read(method, tenant, target, &[])?
        }
        _ => return Err(Trouble::NoCase),
    };
    let reply = ask(alloc, service, request)?;
    Ok(reply_answer(alloc, &reply))
}

/// The call `service units TENANT TARGET` of a worked case: the status of a GET, and how many units and
/// checked answers all turns of this case request tell.
fn units_answer(
    alloc: Global,
    service: &mut StoredService,
    given: &[Vec<u8>],
) -> Result<Answer, Trouble> {
    let [tenant, target] = given else {
        return Err(Trouble::NoCase);
    };
    let request = CaseRequest::read(Method::Get, tenant, target, &[])?;
    let told = ask_within(alloc, service, request, Limit::Never)?;
    let mut answer = Answer::of_word(alloc, told.reply.status.as_str());
    answer.number(told.units());
    answer.number(told.checks());
    Ok(answer)
}

/// The call `service counts` of a worked case: how often the service used a parse that was kept, and how
/// often an evaluation that was kept.
fn counts_answer(
    alloc: Global,
    service: &StoredService,
    given: &[Vec<u8>],
) -> Result<Answer, Trouble> {
    if !given.is_empty() {
        return Err(Trouble::NoCase);
    }
    let counts = service.counts();
    let mut answer = Answer::new(alloc);
    answer.number(counts.parses);
    answer.number(counts.evals);
    Ok(answer)
}

/// The service's reply to a case request on a new connection, which is lost after the reply.
pub fn ask(
    alloc: Global,
    service: &mut StoredService,
    request: CaseRequest<'_>,
) -> Result<Reply, Trouble> {
    let told = ask_within(alloc, service, request, Limit::Never)?;
    Ok(told.reply)
}

/// The service's reply to a case request on a new connection, with what each turn of the request tells as
/// spent. In some turns the store's steps are limited.
pub fn ask_within(
    alloc: Global,
    service: &mut StoredService,
    request: CaseRequest<'_>,
    limit: Limit,
) -> Result<Counted, Trouble> {
    let conn = send(alloc, service, request)?;
    let counted = take_turns(alloc, service, request.tenant, limit)?;
    let _lost = happen(service, &Event::Fault(conn))?;
    Ok(counted)
}

/// Sends a case request to the service on a new connection, whose number it gives.
pub fn send(
    alloc: Global,
    service: &mut StoredService,
    request: CaseRequest<'_>,
) -> Result<u64, Trouble> {
    let conn = service.next_conn();
    let piece = Event::Piece(conn, stream_of(alloc, request)?);
    let _opened = happen(service, &Event::Open(conn))?;
    let _came = happen(service, &piece)?;
    Ok(conn)
}

/// What an event tells in the service of a worked case. It is `NoCase` if the service doesn't allow the
/// event.
pub fn happen(service: &mut StoredService, event: &Event) -> Result<Told, Trouble> {
    if !service.allows(event) {
        return Err(Trouble::NoCase);
    }
    Ok(service.step(event))
}

/// The bytes of a case request as a stream has them.
fn stream_of(alloc: Global, request: CaseRequest<'_>) -> Result<Vec<u8>, Trouble> {
    let Some(key) = KEYS.get(request.tenant) else {
        return Err(Trouble::NoCase);
    };
    let (method, target, length) = (request.method.as_str(), request.target, request.body.len());
    let head = format!(in alloc;
        "{method} {target} HTTP/1.1\r\nHost: x\r\nX-Ports-Key: {key}\r\nContent-Length: {length}\r\n\r\n"
    )?;
    let mut bytes = Vec::from_slice(alloc, head.as_bytes())?;
    bytes.extend_from_slice(request.body)?;
    Ok(bytes)
}

/// The call `service fill TENANT N BYTES` of a worked case: how many of N files of these bytes are stored by
/// case requests, and the reply to the first that isn't.
fn fill(alloc: Global, service: &mut StoredService, given: &[Vec<u8>]) -> Result<Answer, Trouble> {
    let [tenant, count, body] = given else {
        return Err(Trouble::NoCase);
    };
    let count = as_number(count)?;
    for number in 0..count {
        let target = format!(in alloc; "/v1/file?name=/f/{number}")?;
        let request = CaseRequest::read(Method::Put, tenant, target.as_bytes(), body)?;
        let reply = ask(alloc, service, request)?;
        if reply.status != StatusCode::OK {
            let mut answer = filled(alloc, number, reply.status.as_str());
            answer.text(reply.body());
            return Ok(answer);
        }
    }
    Ok(filled(alloc, count, "stored"))
}

/// The calls `service PUT stopped TENANT TARGET BODY by PROBE`,
/// `service DELETE stopped TENANT TARGET by PROBE` of a worked case: the case request under a limit of 1, 2,
/// 3 .. steps of the store until it isn't answered 503. It gives whether a GET of the probe gave after each
/// 503 what it gave before, and each 503 told nothing as spent; and the last status.
fn stopped(
    alloc: Global,
    service: &mut StoredService,
    method: Method,
    given: &[Vec<u8>],
) -> Result<Answer, Trouble> {
    let (tenant, target, body, probe) = match (method, given) {
        (Method::Put, [tenant, target, body, probe]) => (tenant, target, body.as_slice(), probe),
        (Method::Get | Method::Delete, [tenant, target, probe]) => {
            (tenant, target, b"".as_slice(), probe)
        }
        _ => return Err(Trouble::NoCase),
    };
    let request = CaseRequest::read(method, tenant, target, body)?;
    let probe = CaseRequest::read(Method::Get, tenant, probe, &[])?;
    stopped_by(alloc, service, request, probe)
}

/// Makes a case request under a limit of 1, 2, 3 .. steps of the store until it isn't answered 503, with a
/// GET of the probe before the first and after each 503.
fn stopped_by(
    alloc: Global,
    service: &mut StoredService,
    request: CaseRequest<'_>,
    probe: CaseRequest<'_>,
) -> Result<Answer, Trouble> {
    let was = ask(alloc, service, probe)?;
    let mut is_kept = true;
    for steps in 1..MOST_LIMITS {
        let told = ask_within(alloc, service, request, Limit::InAll(steps))?;
        if told.reply.status != StatusCode::SERVICE_UNAVAILABLE {
            return Ok(stops_answer(alloc, steps, is_kept, told.reply.status.as_str()));
        }
        let is_same = ask(alloc, service, probe)?.body() == was.body();
        is_kept = is_kept && told.is_free_at_last() && is_same;
    }
    Err(Trouble::NoCase)
}

/// The call `service GET stopped TENANT TARGET longer than TARGET` of a worked case: `longer`, if the first
/// case request is answered 503 under a limit of more steps than the second, and else `no longer`.
fn stopped_longer(
    alloc: Global,
    service: &mut StoredService,
    given: &[Vec<u8>],
) -> Result<Answer, Trouble> {
    let [tenant, target, other] = given else {
        return Err(Trouble::NoCase);
    };
    let first = CaseRequest::read(Method::Get, tenant, target, &[])?;
    let other = CaseRequest::read(Method::Get, tenant, other, &[])?;
    let is_longer = steps_needed(alloc, service, first)? > steps_needed(alloc, service, other)?;
    Ok(Answer::of_word(alloc, if is_longer { "longer" } else { "no longer" }))
}

/// The least limit of the store's steps under which a case request isn't answered 503.
fn steps_needed(
    alloc: Global,
    service: &mut StoredService,
    request: CaseRequest<'_>,
) -> Result<u64, Trouble> {
    for steps in 1..MOST_LIMITS {
        let told = ask_within(alloc, service, request, Limit::InAll(steps))?;
        if told.reply.status != StatusCode::SERVICE_UNAVAILABLE {
            return Ok(steps);
        }
    }
    Err(Trouble::NoCase)
}
