//! Worked cases of the turns that a request takes: what each turn tells, with the store's steps limited in
//! some of them.
use crate::service::StoredService;
use crate::service_requests::{CaseRequest, ask, ask_within, happen, send};
use case_lines::{Answer, Trouble, as_number};
use http::StatusCode;
use ports_core::{Event, Job, Tell};
use ports_http::{Method, Reply};
use std::alloc::Global;
use store_cases::MOST_LIMITS;

/// More turns than a request of a case takes.
const MOST_TURNS: usize = 100;

/// In which turns of a case's request each statement of the store may take so many steps at most.
#[derive(Clone, Copy)]
pub enum Limit {
    Never,
    InAll(u64),
    /// In the turn with this number alone, counted from 0.
    In(usize, u64),
}

impl Limit {
    /// The limit of the store's steps in the turn of a request with this number.
    fn in_turn(self, number: usize) -> Option<u64> {
        match self {
            Limit::InAll(steps) => Some(steps),
            Limit::In(turn, steps) if turn == number => Some(steps),
            Limit::Never | Limit::In(_, _) => None,
        }
    }
}

/// What a turn of a case's request tells as spent, and what the tenant's first request has had after it.
#[derive(Clone, Copy)]
pub struct TurnCost {
    units: u64,
    checks: u64,
    had: Job,
}

/// The reply to a case's request, and what each turn of the request tells as spent.
#[derive(Drop)]
pub struct Counted {
    pub reply: Reply,
    turns: Vec<TurnCost>,
}

impl Counted {
    /// The units of all turns of a case's request.
    pub fn units(&self) -> u64 {
        let mut units: u64 = 0;
        for turn in self.turns.iter() {
            units = units.saturating_add(turn.units);
        }
        units
    }

    /// The checked answers of all turns of a case's request.
    pub fn checks(&self) -> u64 {
        let mut checks: u64 = 0;
        for turn in self.turns.iter() {
            checks = checks.saturating_add(turn.checks);
        }
        checks
    }

    /// Whether the turn of a case's request that told the reply spent nothing.
    pub fn is_free_at_last(&self) -> bool {
        match self.turns.last() {
            Some(turn) => turn.units == 0 && turn.checks == 0,
            None => false,
        }
    }
}

/// Takes the turns of a tenant until a reply to its request is told, with the store's steps limited in some
/// of them.
pub fn take_turns(
    alloc: Global,
    service: &mut StoredService,
    tenant: usize,
    limit: Limit,
) -> Result<Counted, Trouble> {
    let mut turns = Vec::new(alloc);
    for number in 0..MOST_TURNS {
        service.limit_steps(limit.in_turn(number));
        let told = happen(service, &Event::Turn(tenant))?;
        service.limit_steps(None);
        turns.push(TurnCost {
            units: told.units,
            checks: told.checks,
            had: service.job(tenant),
        })?;
        if let Some(Tell { reply, .. }) = told.reply {
            return Ok(Counted { reply, turns });
        }
    }
    Err(Trouble::NoCase)
}

/// The calls `service turns TENANT TARGET`, `service turns TENANT TARGET stopped in TURN` of a worked case:
/// the status of a GET, and of each of its turns the units and the checked answers that it tells. In the turn
/// with this number, counted from 1, the store's statements may take one step.
pub fn turns_answer(
    alloc: Global,
    service: &mut StoredService,
    given: &[Vec<u8>],
) -> Result<Answer, Trouble> {
    let (tenant, target, limit) = match given {
        [tenant, target] => (tenant, target, Limit::Never),
        [tenant, target, turn] => (tenant, target, Limit::In(place_of(turn)?, 1)),
        _ => return Err(Trouble::NoCase),
    };
    let request = CaseRequest::read(Method::Get, tenant, target, &[])?;
    let told = ask_within(alloc, service, request, limit)?;
    let mut answer = Answer::of_word(alloc, told.reply.status.as_str());
    for turn in told.turns.iter() {
        answer.number(turn.units);
        answer.number(turn.checks);
    }
    Ok(answer)
}

/// The call `service jobs TENANT TARGET` of a worked case: the status of a GET, and after each of its turns
/// what the tenant's first request has had: turns, units and checked answers.
pub fn jobs_answer(
    alloc: Global,
    service: &mut StoredService,
    given: &[Vec<u8>],
) -> Result<Answer, Trouble> {
    let [tenant, target] = given else {
        return Err(Trouble::NoCase);
    };
    let request = CaseRequest::read(Method::Get, tenant, target, &[])?;
    let told = ask_within(alloc, service, request, Limit::Never)?;
    let mut answer = Answer::of_word(alloc, told.reply.status.as_str());
    for turn in told.turns.iter() {
        add_job(&mut answer, turn.had);
    }
    Ok(answer)
}

/// The call `service job TENANT TARGET while TENANT TARGET` of a worked case: a GET that has had one turn,
/// while another one is asked and told.
///
/// It gives `kept` if the second GET changed nothing of what the first has had, and else `changed`. Then it
/// gives what the first has had after its first turn, how many turns the second took, and how many more the
/// first.
pub fn job_while_answer(
    alloc: Global,
    service: &mut StoredService,
    given: &[Vec<u8>],
) -> Result<Answer, Trouble> {
    let [tenant, target, other_tenant, other_target] = given else {
        return Err(Trouble::NoCase);
    };
    let first = CaseRequest::read(Method::Get, tenant, target, &[])?;
    let other = CaseRequest::read(Method::Get, other_tenant, other_target, &[])?;
    let _conn = send(alloc, service, first)?;
    let _told = happen(service, &Event::Turn(first.tenant))?;
    let had = service.job(first.tenant);
    let between = ask_within(alloc, service, other, Limit::Never)?;
    let is_kept = service.job(first.tenant) == had;
    let rest = take_turns(alloc, service, first.tenant, Limit::Never)?;
    let mut answer = Answer::of_word(alloc, if is_kept { "kept" } else { "changed" });
    add_job(&mut answer, had);
    answer.number(between.turns.len() as u64);
    answer.number(rest.turns.len() as u64);
    Ok(answer)
}

/// Adds to the answer of a worked case what a request has had: turns, units and checked answers.
fn add_job(answer: &mut Answer, had: Job) {
    answer.number(had.turns);
    answer.number(had.units);
    answer.number(had.checks);
}

/// The place of a request's turn, counted from 0, whose number a case counts from 1.
fn place_of(turn: &[u8]) -> Result<usize, Trouble> {
    match as_number(turn)?.checked_sub(1) {
        Some(place) => Ok(place as usize),
        None => Err(Trouble::NoCase),
    }
}

/// A GET of a worked case, and a request before it, after which it takes all its turns again.
#[derive(Clone, Copy)]
struct GetAfter<'a> {
    get: CaseRequest<'a>,
    before: CaseRequest<'a>,
}

/// What GETs of a worked case told in all their turns, asked again after one GET was answered 503.
#[derive(Clone, Copy, PartialEq, Eq)]
enum Again {
    /// None was answered 503.
    Never,
    /// Each told the right reply, and these units in all its turns.
    Right(u64),
    /// One told another reply or other units, or a 503 told that something was spent.
    Wrong,
}

/// The call `service GET stopped at each turn TENANT TARGET after PUT TARGET BODY` of a worked case, and
/// after GET TARGET: the first GET after the other request. It is asked under a limit of 1, 2, 3 .. steps in
/// its first turn alone, until that turn isn't answered 503; then so in its second turn, and so on up to the
/// last. After each 503 the GET is asked again, without a limit.
///
/// For each turn it gives the units of the GETs that were asked again, or `never` if the turn wasn't answered
/// 503. It gives `wrong` if one gave another reply than a GET without a limit, or other units than the
/// others.
pub fn stopped_at_each(
    alloc: Global,
    service: &mut StoredService,
    given: &[Vec<u8>],
) -> Result<Answer, Trouble> {
    let (tenant, target, method, other, body) = match given {
        [tenant, target, other] => (tenant, target, Method::Get, other, b"".as_slice()),
        [tenant, target, other, body] => (tenant, target, Method::Put, other, body.as_slice()),
        _ => return Err(Trouble::NoCase),
    };
    let asked = GetAfter {
        get: CaseRequest::read(Method::Get, tenant, target, &[])?,
        before: CaseRequest::read(method, tenant, other, body)?,
    };
    let _before = ask(alloc, service, asked.before)?;
    let plain = ask_within(alloc, service, asked.get, Limit::Never)?;
    let mut answer = Answer::new(alloc);
    for turn in 0..plain.turns.len() {
        match stopped_in(alloc, service, asked, turn, &plain.reply)? {
            Again::Never => answer.word("never"),
            Again::Right(units) => answer.number(units),
            Again::Wrong => answer.word("wrong"),
        }
    }
    Ok(answer)
}

/// What GETs of a worked case told, asked again after each 503 in the turn with this number, under a limit of
/// 1, 2, 3 .. steps.
fn stopped_in(
    alloc: Global,
    service: &mut StoredService,
    asked: GetAfter<'_>,
    turn: usize,
    plain: &Reply,
) -> Result<Again, Trouble> {
    let mut again = Again::Never;
    for steps in 1..MOST_LIMITS {
        let _before = ask(alloc, service, asked.before)?;
        let stopped = ask_within(alloc, service, asked.get, Limit::In(turn, steps))?;
        if stopped.reply.status != StatusCode::SERVICE_UNAVAILABLE {
            let is_right = stopped.reply.body() == plain.body();
            return Ok(if is_right { again } else { Again::Wrong });
        }
        let told = ask_within(alloc, service, asked.get, Limit::Never)?;
        let is_right = stopped.is_free_at_last() && told.reply.body() == plain.body();
        let units = told.units();
        again = match again {
            Again::Never if is_right => Again::Right(units),
            Again::Right(first) if is_right && first == units => again,
            _ => Again::Wrong,
        };
    }
    Err(Trouble::NoCase)
}
