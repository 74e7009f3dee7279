//! The history of a whole run of events over a service: what each told and sent.
ghost use Rattle.std.specs.Prelude.{◌≡◌, IfErr, IfOk, OnOk};
ghost use Rattle.refusals.specs.Refused.{refused};
ghost use Rattle.ports_core.specs.State.{IsAllowed};
ghost use Rattle.ports_core.specs.Runs.{sent_by};
ghost use Rattle.ports_core.specs.Replays.{EndsEarly};
ghost use Rattle.ports_core.specs.Transcripts.{GivesRun, RunsConverse, RunsInTime, RunsPlainly};
ghost use Rattle.ports_core.specs.declared.history.ReplayFault.TheVariants as faults;

use crate::event::{Event, Told};
use crate::keys::Config;
use crate::service::{NewFault, Service};
use crate::tenants::Tenants;
use refusals::OutOfMemory;
use std::alloc::{AllocError, AllocFailed, Global};
use std::marker::Model;

/// What an event of a run told, and the bytes that it took off its connection: those that a Wrote
/// says were written.
#[derive(Drop)]
pub struct Step {
    pub told: Told,
    pub sent: Vec<u8>,
}

impl Model for Step {
    ghost use Rattle.ports_core.specs.Effects.{Effect};

    ghost Value = { Effect };

    ghost use Rattle.ports_core.specs.StepView.{step_view};

    ghost view = { step_view };
}

/// The history of a run: one step for each event, and the service as the last event left it.
#[derive(Drop)]
pub struct Transcript<K: Tenants> {
    pub steps: Vec<Step>,
    pub service: Service<K>,
}

/// Why a run of events stopped.
#[derive(Drop)]
pub enum ReplayFault<K: Tenants> {
    /// The event at this place isn't allowed; the transcript is that of the events before it.
    NotAllowed { index: usize, done: Transcript<K> },
    /// The service couldn't begin.
    New(NewFault),
    /// There was no memory for the transcript.
    Memory(OutOfMemory),
}

impl<K: Tenants> From<NewFault> for ReplayFault<K> {
    ghost from_gives = { λ why fault. fault ≡ faults.New why };

    /// The fault that a run of events stopped since the service couldn't begin.
    fn from(fault: NewFault) -> ReplayFault<K> {
        ReplayFault::New(fault)
    }
}

impl<K: Tenants> From<AllocError> for ReplayFault<K> {
    ghost from_gives = { λ _ fault. fault ≡ faults.Memory refused };

    /// The fault that a run of events stopped since there was no memory.
    fn from(error: AllocError) -> ReplayFault<K> {
        ReplayFault::Memory(OutOfMemory::from(error))
    }
}

impl<K: Tenants, T: Drop> From<AllocFailed<T>> for ReplayFault<K> {
    ghost from_gives = { λ _ fault. fault ≡ faults.Memory refused };

    /// The fault that a run of events stopped since there was no memory for one more step.
    fn from(error: AllocFailed<T>) -> ReplayFault<K> {
        ReplayFault::Memory(OutOfMemory::from(error))
    }
}

/// Runs the events over a service that begins with the config. `K` keeps the worlds of its tenants.
///
/// The replies told to a tenant, other than 503, are those of a plain service that has only this
/// tenant's requests, in order. The requests that still wait at the end are left out. What is written to
/// a connection, and what is pending, is the replies to what its stream asks, in order, however the
/// stream came in pieces. If a connection was lost, what was written before is a front of these replies,
/// and nothing more is written. Each request is told its reply within a number of its tenant's own turns that only the
/// tenant's world and the request decide.
///
/// The result is the transcript. The error is `NotAllowed` at the first event that isn't allowed, `New` if
/// the service can't begin, and `Memory` if there is none for the transcript. If the config isn't fit, the
/// error is that of the service, `Config`.
pub fn replay<K: Tenants>(
    alloc: Global,
    config: Config,
    events: &[Event],
) -> Result<Transcript<K>, ReplayFault<K>>
    ensures run { GivesRun result config events.now }
    ensures plainly { RunsPlainly result config events.now }
    ensures converses { RunsConverse result config events.now }
    ensures in_time { OnOk result (RunsInTime config events.now) }
    ensures err { IfErr result (EndsEarly config events.now) }
{
    let mut service = Service::new(alloc, config)?;
    let mut steps = Vec::with_capacity(alloc, events.len())?;
    for (index, event) in events.iter().enumerate() {
        if !service.allows(event) {
            let done = Transcript { steps, service };
            return Err(ReplayFault::NotAllowed { index, done });
        }
        let sent = bytes_sent(alloc, &service, event)?;
        let told = service.step(event);
        steps.push(Step { told, sent })?;
    }
    Ok(Transcript { steps, service })
}

/// The bytes that an event takes off its connection, as the step of a run has them.
fn bytes_sent<K: Tenants>(
    alloc: Global,
    service: &Service<K>,
    event: &Event,
) -> Result<Vec<u8>, AllocError>
    requires { IsAllowed event.now service.now }
    ensures { IfOk result (λ bytes. bytes.items ≡ sent_by event.now service.now) }
{
    let Event::Wrote(conn, count) = event else {
        return Ok(Vec::new(alloc));
    };
    let pending = service.pending(*conn);
    match count {
        Some(count) => Vec::from_slice(alloc, &pending[..*count]),
        None => Vec::from_slice(alloc, pending),
    }
}
