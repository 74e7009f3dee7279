//! Worked cases of cut streams: a stream ends after any of its bytes, or comes byte by byte.
use crate::service::{config, service_of_one};
use crate::service_requests::happen;
use case_lines::{Answer, Trouble};
use ports_core::{Event, Step, Tell, Told, Transcript, replay};
use portsd_text::read_script;
use std::alloc::Global;
use stored_tenants::StoredTenants;

/// More turns and writes than the requests of a cut stream take.
const MOST_TURNS: usize = 20;

/// The call `ends of STREAM` of a worked case of cut streams: how many replies are told to a client of the
/// tenant `alpha`, if its stream ends after each of its bytes.
///
/// For each number of replies it gives the length of the shortest such stream before the number, and then
/// what is sent to the whole one. Before that comes `wrong` with a length, if the client is sent anything but
/// a front of that, or if its connection isn't closed in the end.
pub fn ends_of(alloc: Global, given: &[Vec<u8>]) -> Result<Answer, Trouble> {
    let [stream] = given else {
        return Err(Trouble::NoCase);
    };
    let whole = ended_after(alloc, stream.as_slice())?;
    let mut answer = Answer::new(alloc);
    let mut replies: Option<u64> = None;
    for length in 0..=stream.len() {
        let ended = ended_after(alloc, &stream[..length])?;
        if !whole.sent.starts_with(ended.sent.as_slice()) || !ended.is_closed {
            answer.word("wrong");
            answer.number(length as u64);
        }
        if replies != Some(ended.replies) {
            answer.number(length as u64);
            answer.number(ended.replies);
            replies = Some(ended.replies);
        }
    }
    answer.text(whole.sent.as_slice());
    Ok(answer)
}

/// What became of a connection whose cut stream ended.
#[derive(Drop)]
struct Ended {
    replies: u64,
    sent: Vec<u8>,
    is_closed: bool,
}

impl Ended {
    /// Notes what an event tells of a connection whose cut stream ended: a reply, or that it is closed.
    fn note(&mut self, told: Told) {
        let Told { reply, closed, .. } = told;
        if reply.is_some() {
            self.replies = self.replies.saturating_add(1);
        }
        self.is_closed = self.is_closed || closed == Some(0);
    }
}

/// What becomes of the connection 0 if this cut stream comes on it and ends.
fn ended_after(alloc: Global, stream: &[u8]) -> Result<Ended, Trouble> {
    let mut service = service_of_one(alloc)?;
    let mut ended = Ended {
        replies: 0,
        sent: Vec::new(alloc),
        is_closed: false,
    };
    let piece = Event::Piece(0, Vec::from_slice(alloc, stream)?);
    ended.note(happen(&mut service, &Event::Open(0))?);
    ended.note(happen(&mut service, &piece)?);
    ended.note(happen(&mut service, &Event::End(0))?);
    for _ in 0..MOST_TURNS {
        if service.waiting(0) > 0 {
            ended.note(happen(&mut service, &Event::Turn(0))?);
        } else if !ended.is_closed {
            ended.sent.extend_from_slice(service.pending(0))?;
            ended.note(happen(&mut service, &Event::Wrote(0, None))?);
        }
    }
    Ok(ended)
}

/// The call `by bytes SCRIPT` of a worked case of cut streams: the statuses that a script for the tenants
/// `alpha` and `beta` tells, if each byte of its streams comes in a piece of its own. Then it gives `differs`
/// if the script as it is tells others or sends other bytes.
pub fn by_bytes(alloc: Global, given: &[Vec<u8>]) -> Result<Answer, Trouble> {
    let [script] = given else {
        return Err(Trouble::NoCase);
    };
    let whole = hear(alloc, events_of(alloc, script)?)?;
    let cut = hear(alloc, in_bytes(alloc, events_of(alloc, script)?)?)?;
    let is_same = whole.statuses.is_same(&cut.statuses)?
        && whole.sent.as_slice() == cut.sent.as_slice();
    let Heard {
        statuses: mut answer,
        ..
    } = cut;
    if !is_same {
        answer.word("differs");
    }
    Ok(answer)
}

/// The events of the script that a worked case of cut streams gives.
fn events_of(alloc: Global, script: &[u8]) -> Result<Vec<Event>, Trouble> {
    let mut input = script;
    let script = read_script(alloc, &mut input).map_err(|_| Trouble::NoCase)?;
    Ok(script.events)
}

/// These events with each piece of a stream cut into its bytes.
fn in_bytes(alloc: Global, events: Vec<Event>) -> Result<Vec<Event>, Trouble> {
    let mut cut = Vec::new(alloc);
    for event in events {
        let Event::Piece(conn, bytes) = event else {
            cut.push(event)?;
            continue;
        };
        for byte in bytes {
            cut.push(Event::Piece(conn, vec![in alloc; byte]?))?;
        }
    }
    Ok(cut)
}

/// What clients heard in a run of a script, whose streams may be cut.
#[derive(Drop)]
struct Heard {
    statuses: Answer,
    /// The bytes that all were sent, in the order of the events.
    sent: Vec<u8>,
}

/// What clients hear if these events happen, with streams cut or whole: the statuses that are told, and the
/// bytes that are sent.
fn hear(alloc: Global, events: Vec<Event>) -> Result<Heard, Trouble> {
    let replayed = replay::<StoredTenants>(alloc, config(alloc, &[])?, events.as_slice());
    let Ok(Transcript { steps, .. }) = replayed else {
        return Err(Trouble::NoCase);
    };
    let mut heard = Heard {
        statuses: Answer::new(alloc),
        sent: Vec::new(alloc),
    };
    for step in steps {
        let Step { told, sent } = step;
        if let Some(Tell { reply, .. }) = told.reply {
            heard.statuses.word(reply.status.as_str());
        }
        heard.sent.extend_from_slice(sent.as_slice())?;
    }
    Ok(heard)
}
