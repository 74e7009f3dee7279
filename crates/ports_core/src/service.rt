//! The service, which changes by one event at a time.
ghost use Rattle.std.specs.Prelude.{◌≡◌, ◌<◌, ◌↔◌, false, Bool, [], IsTrue, IfOk, IsErrOf, length, replicate};
ghost use Rattle.refusals.specs.Refused.{refused};
ghost use Rattle.plain_service.specs.Outcomes.{IfMade};
ghost use Rattle.ports_core.specs.declared.service.NewFault.TheVariants.{Memory};
ghost use Rattle.ports_core.specs.NewFault.{new_fault};

use crate::connection::Connection;
use crate::connections::{
    Connections, MOST_CONNECTIONS, answer_connection, close_done, closes, hear_connection, may_hear,
};
use crate::counts::Counts;
use crate::event::{Event, Refused, Tell, Told};
use crate::job::Job;
use crate::keys::Config;
use crate::queue::Queue;
use crate::tenants::{Answer, Tenants, Worked};
use arrayvec::ArrayVec;
use mk_paths::FilesFault;
use refusals::{OutOfMemory, StoreRefusal};
use std::alloc::{AllocError, Global};
use std::collections::BTreeMap;
use std::marker::Model;
use thiserror::Error;

/// Why a service can't begin.
#[derive(Clone, Copy, Debug, PartialEq, Eq, Error)]
pub enum NewFault {
    /// A key or a size is out of its limits, or a key is given twice.
    #[error("a key or a size is out of its limits, or a key is given twice")]
    Config,
    /// The store of the worlds failed.
    #[error("the store of the worlds failed")]
    Store(StoreRefusal),
    /// There was no memory.
    #[error("out of memory")]
    Memory(OutOfMemory),
}

impl From<AllocError> for NewFault {
    ghost from_gives = { λ _ fault. fault ≡ Memory refused };

    /// The fault that a service can't begin since there was no memory.
    fn from(error: AllocError) -> NewFault {
        NewFault::Memory(OutOfMemory::from(error))
    }
}

impl From<FilesFault> for NewFault {
    ghost from_gives = { λ why fault. fault ≡ new_fault why };

    /// The fault that a service can't begin since the store of the worlds failed, or since there was no
    /// memory.
    fn from(why: FilesFault) -> NewFault {
        match why {
            FilesFault::Store(refusal) => NewFault::Store(refusal),
            FilesFault::Memory(refused) => NewFault::Memory(refused),
        }
    }
}

/// The service, over the tenants' worlds, wherever they are kept. A contract sees the tenants' keys, their
/// worlds, the requests that wait, the open connections by their numbers, the next number, what is under way for
/// each tenant, and what the tenants share.
#[derive(Drop)]
pub struct Service<K: Tenants> {
    alloc: Global,
    keys: Vec<String>,
    worlds: K,
    queues: Vec<Queue>,
    connections: Connections,
    next: u64,
}

impl<K: Tenants> Model for Service<K> {
    ghost use Rattle.ports_core.specs.State.{State};

    ghost Value = { State };

    ghost use Rattle.std.specs.Coded.{codes};
    ghost use Rattle.mk_paths.specs.World.{world_code};

    ghost coded = { Prim.hlevel (codes, world_code) };

    ghost use Rattle.std.specs.Prelude.{length};
    ghost use Rattle.ports_core.specs.Keys.{key_texts};

    ghost view = { λ s. (
      key_texts s.keys.items,
      K.worlds s.worlds,
      s.queues.items,
      s.connections.entries,
      s.next,
      K.jobs s.worlds,
      K.sharing s.worlds,
    ) };

    ghost use Rattle.ports_core.specs.Consistent.{IsConsistent};

    ghost invariant = { λ s. IsConsistent (length s.keys.items) (K.worlds s.worlds) s.queues.items
        s.connections.entries s.next (K.jobs s.worlds) };
}

impl<K: Tenants> Service<K> {
    ghost use Rattle.ports_core.specs.Keys.{is_fit, key_texts};
    ghost use Rattle.ports_core.specs.Opened.{OpenAnd};
    ghost use Rattle.ports_core.specs.State.{new_state, keys_of, slice_of, job_at, had_at, next_of, connections_of, connection_of};
    ghost use Rattle.ports_core.specs.Sharing.{sizes_of};
    ghost use Rattle.ports_core.specs.State.{sharing_of, room_at, pending_at, waiting_at, IsAllowed};
    ghost use Rattle.ports_core.specs.Connections.{MayHappenTo};
    ghost use Rattle.ports_core.specs.Tell.{spent_as_told, CountsNone};
    ghost use Rattle.ports_core.specs.Charges.{EventSpends, FitsTurn, TurnSpends};
    ghost use Rattle.ports_core.specs.JobChanges.{ChangesJobs, KeepsJobs, TurnsJob};
    ghost use Rattle.ports_core.specs.SharingChanges.{ChangesSharing, KeepsSharing, UsesSharing};
    ghost use Rattle.ports_core.specs.Steps.{Does, Opens, Hears, Turns};

    /// A service whose tenants' worlds are as each begins, without connections, with places for
    /// all requests that can wait. As much may be kept for the tenants as the config says, and nothing was used yet.
    ///
    /// The error is `Config` exactly if the keys and sizes aren't fit. It is `Store` if the store of the
    /// worlds fails, and `Memory` if memory runs out.
    pub fn new(alloc: Global, config: Config) -> Result<Service<K>, NewFault>
        ensures ok { IfMade result (new_state (key_texts config.keys.items) (sizes_of config)) }
        ensures unfit { IsErrOf result NewFault.Config ↔ (is_fit config ≡ false) }
    {
        if !config.is_fit() {
            return Err(NewFault::Config);
        }
        let worlds = K::new(alloc, &config)?;
        let Config { keys, .. } = config;
        let count = keys.len();
        let queues = new_queues(alloc, count)?;
        Ok(Service {
            alloc,
            keys,
            worlds,
            queues,
            connections: BTreeMap::new(alloc),
            next: 0,
        })
    }

    /// The number of the next connection that the service opens.
    pub fn next_conn(&self) -> u64
        ensures { result ≡ next_of self.now }
    {
        self.next
    }

    /// How many tenants the service has.
    pub fn tenants(&self) -> usize
        ensures { result ≡ length (keys_of self.now) }
    {
        self.keys.len()
    }

    /// The numbers of the service's open connections, in rising order.
    pub fn connections(&self) -> ArrayVec<u64, MOST_CONNECTIONS>
        ensures { result.items ≡ connections_of self.now }
    {
        let mut numbers = ArrayVec::new();
        for conn in self.connections.keys() {
            numbers.push(*conn);
        }
        numbers
    }

    /// How many bytes a connection of the service may send; 0 if it isn't open.
    pub fn room(&self, conn: u64) -> usize
        ensures { result ≡ room_at conn self.now }
    {
        match self.connections.get(&conn) {
            Some(connection) => connection.room(),
            None => 0,
        }
    }

    /// The bytes that a connection of the service has still to write; none if it isn't open.
    pub fn pending(&self, conn: u64) -> &[u8]
        ensures { result.now ≡ pending_at conn self.now }
    {
        match self.connections.get(&conn) {
            Some(connection) => connection.pending.bytes(),
            None => &[],
        }
    }

    /// Limits the steps of each later statement of what keeps the service's worlds, or removes the limit. A
    /// request whose statement would take more is answered 503. It changes nothing that a contract sees.
    pub fn limit_steps(&mut self, limit: Option<u64>)
        ensures { self.new ≡ self.old }
    {
        self.worlds.limit_steps(limit);
    }

    /// How many requests wait in the queue of one of the service's tenants; 0 if there is no such tenant.
    pub fn waiting(&self, tenant: usize) -> usize
        ensures { result ≡ waiting_at tenant self.now }
    {
        match self.queues.get(tenant) {
            Some(queue) => queue.len(),
            None => 0,
        }
    }

    /// What the first request of one of the service's tenants has had so far; nothing if none waits or there
    /// is no such tenant.
    pub fn job(&self, tenant: usize) -> Job
        ensures { result ≡ had_at tenant self.now }
    {
        self.worlds.job(tenant)
    }

    /// How often something was used that the service keeps for all tenants.
    pub fn counts(&self) -> Counts
        ensures { result ≡ (sharing_of self.now).counts }
    {
        self.worlds.counts()
    }

    /// Whether an event may happen to the service now.
    pub fn allows(&self, event: &Event) -> bool
        ensures { IsTrue result ↔ IsAllowed event.now self.now }
    {
        match event {
            Event::Open(conn) => *conn == self.next,
            Event::Turn(tenant) => *tenant < self.keys.len(),
            Event::Piece(conn, _) => may_hear(&self.connections, *conn, event),
            Event::End(conn) => may_hear(&self.connections, *conn, event),
            Event::Fault(conn) => may_hear(&self.connections, *conn, event),
            Event::Wrote(conn, _) => may_hear(&self.connections, *conn, event),
        }
    }

    /// Carries out an event that the service allows now, and gives what it tells. The units and checks that
    /// it tells are at most 51,000 together.
    pub fn step(&mut self, event: &Event) -> Told
        requires { IsAllowed event.now self.old }
        ensures does { Does event.now result self.old self.new }
        ensures spends { EventSpends event.now result self.old }
        ensures short { FitsTurn (spent_as_told result) }
        ensures jobs { ChangesJobs event.now result self.old self.new }
        ensures shares { ChangesSharing event.now self.old self.new }
    {
        match event {
            Event::Open(_) => self.open(),
            Event::Turn(tenant) => self.turn(*tenant),
            Event::Piece(conn, _) => self.hear(*conn, event),
            Event::End(conn) => self.hear(*conn, event),
            Event::Fault(conn) => self.hear(*conn, event),
            Event::Wrote(conn, _) => self.hear(*conn, event),
        }
    }

    /// Opens a connection of the service, under the next number, unless too many are open or there is no
    /// memory.
    fn open(&mut self) -> Told
        ensures opens { Opens result self.old self.new }
        ensures counts { CountsNone result }
        ensures jobs { KeepsJobs self.old self.new }
        ensures shares { KeepsSharing self.old self.new }
    {
        if self.connections.len() >= MOST_CONNECTIONS || self.next == u64::MAX {
            return Told::refusal(Refused::Connections);
        }
        let connection = match Connection::new(self.alloc) {
            Ok(connection) => connection,
            Err(error) => return Told::refusal(Refused::Memory(OutOfMemory::from(error))),
        };
        if let Err(failed) = self.connections.insert(self.next, connection) {
            return Told::refusal(Refused::Memory(OutOfMemory::from(failed)));
        }
        self.next += 1;
        Told::nothing()
    }

    /// Carries out an event of an open connection: bytes came, its end, its loss, or bytes that were written.
    fn hear(&mut self, conn: u64, event: &Event) -> Told
        requires { OpenAnd (connection_of conn self.old) (MayHappenTo event.now) }
        ensures hears { Hears event.now conn result self.old self.new }
        ensures counts { CountsNone result }
        ensures jobs { KeepsJobs self.old self.new }
        ensures shares { KeepsSharing self.old self.new }
    {
        let queues = &mut self.queues;
        hear_connection(
            self.alloc,
            &self.keys,
            queues,
            &mut self.connections,
            conn,
            event,
        )
    }

    /// Carries out a tenant's turn: work for its first waiting request, whose reply is told if there is an
    /// answer.
    fn turn(&mut self, tenant: usize) -> Told
        requires { tenant < length (keys_of self.old) }
        ensures turns { Turns tenant result self.old self.new }
        ensures spends { TurnSpends (slice_of tenant self.old) (job_at tenant self.old) result }
        ensures short { FitsTurn (spent_as_told result) }
        ensures jobs { TurnsJob tenant result self.old self.new }
        ensures shares { UsesSharing self.old self.new }
    {
        let queue = &mut self.queues[tenant];
        let Some(first) = queue.first() else {
            return Told::nothing();
        };
        let conn = first.conn;
        let close = closes(&self.connections, conn);
        let Worked { reply, spent } = self.worlds.work(self.alloc, tenant, &first.request, close);
        let Some(Answer { reply, bytes }) = reply else {
            return Told::spending(spent); // the request stays where it is
        };
        let _answered = queue.next();
        answer_connection(&mut self.connections, conn, &reply, bytes);
        let closed = close_done(&mut self.connections, conn);
        let tell = Tell {
            tenant: Some(tenant),
            conn,
            reply,
        };
        Told::answer(tell, closed, spent)
    }
}

/// So many queues in which no request waits, one for each tenant. It fails only if memory runs out.
fn new_queues(alloc: Global, count: usize) -> Result<Vec<Queue>, AllocError>
    ensures { IfOk result (λ queues. queues.items ≡ replicate count []) }
{
    let mut queues = Vec::with_capacity(alloc, count)?;
    for _ in 0..count {
        queues.push(Queue::new(alloc)?)?;
    }
    Ok(queues)
}
