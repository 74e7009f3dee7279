//! Worked cases of plain requests: requests over a tenant's files, answered by the plain service, and what
//! they cost.
use case_lines::{Answer, Trouble, as_text, one_text};
use make_cases::World;
use mk_files::MemoryFiles;
use mk_paths::Settings;
use plain_reference::{answer as plain_answer, effort_for};
use plain_service::{Change, Plain, Prepared};
use ports_http::{Method, Reply};
use std::alloc::{AllocError, Global};
use turn_amounts::{MOST_CHECKS, TURN_UNITS};

/// The calls `GET TARGET`, `PUT TARGET BODY`, `DELETE TARGET` of a worked case of plain requests: the status
/// and the body of the plain reply over the world, which the request may change.
pub fn request(
    alloc: Global,
    world: &mut World,
    method: Method,
    given: &[Vec<u8>],
) -> Result<Answer, Trouble> {
    let (target, body) = match (method, given) {
        (Method::Put, [target, body]) => (target, body.as_slice()),
        (Method::Get | Method::Delete, [target]) => (target, b"".as_slice()),
        _ => return Err(Trouble::NoCase),
    };
    let target = as_text(target)?;
    let Prepared { reply, change } = prepare(
        alloc,
        &mut world.files,
        &world.settings,
        method,
        target,
        body,
    )?;
    let answer = reply_answer(alloc, &reply);
    if let Some(change) = change {
        carry_out(world, change)?;
    }
    Ok(answer)
}

/// What the plain service prepares for a plain request over these files and settings.
fn prepare(
    alloc: Global,
    files: &mut MemoryFiles,
    settings: &Settings,
    method: Method,
    target: &str,
    body: &[u8],
) -> Result<Prepared, Trouble> {
    let question = Plain::new(alloc)?.question(alloc, method, target, body)?;
    Ok(plain_answer(alloc, files, settings, question)?)
}

/// The call `rests TARGET` of a worked case of plain requests: how many makefiles a GET rests on over the
/// world, each once for each choice of flavors. Then it gives what they cost, with the records, the SUBDIRs
/// and the value.
pub fn rests(alloc: Global, world: &mut World, given: &[Vec<u8>]) -> Result<Answer, Trouble> {
    let plain = Plain::new(alloc)?;
    let question = plain.question(alloc, Method::Get, one_text(given)?, &[])?;
    let effort = effort_for(alloc, &mut world.files, &world.settings, &question)?;
    let mut answer = Answer::new(alloc);
    answer.number(effort.evaluations);
    answer.number(effort.units);
    Ok(answer)
}

/// The call `bound TARGET` of a worked case of plain requests: within how many of its tenant's own turns a
/// GET over the world is told its reply. That is one turn, one for each makefile on which it rests, and one
/// for each 1,000 of its units and of the checks that may come.
pub fn bound(alloc: Global, world: &mut World, given: &[Vec<u8>]) -> Result<Answer, Trouble> {
    let plain = Plain::new(alloc)?;
    let question = plain.question(alloc, Method::Get, one_text(given)?, &[])?;
    let effort = effort_for(alloc, &mut world.files, &world.settings, &question)?;
    let checks = effort.evaluations.saturating_mul(MOST_CHECKS);
    let turns = effort.units.saturating_add(checks) / TURN_UNITS;
    let mut answer = Answer::new(alloc);
    answer.number(turns.saturating_add(effort.evaluations).saturating_add(1));
    Ok(answer)
}

/// Carries out in the world of a worked case what a plain request changes.
fn carry_out(world: &mut World, change: Change) -> Result<(), AllocError> {
    match change {
        Change::PutFile(name, content) => world.files.put(name, content)?,
        Change::RemoveFile(name) => {
            let _was_there = world.files.remove(&name);
        }
        Change::SetPath(path) => world.settings.path = path,
        Change::SetProfile(profile) => world.settings.profile = profile,
    }
    Ok(())
}

/// The reply to a request as the answer of a worked case: its status, with its phrase, and its body.
pub fn reply_answer(alloc: Global, reply: &Reply) -> Answer {
    let mut answer = Answer::of_word(alloc, reply.status.as_str());
    answer.word(reply.status.canonical_reason().unwrap_or(""));
    answer.text(reply.body());
    answer
}
