//! The service: connections, the queues of their requests, and the turns that answer them.
//!
//! A `Service` holds up to 16 connections, and the worlds of up to 64 tenants, wherever these are kept
//! (`Tenants`). It changes by one event at a time: the opening, the end or the loss of a connection, bytes
//! that came or were written, or a turn of a tenant. A turn works for the request that comes first in that
//! tenant's queue, which leaves the queue once its reply is told. `replay` runs a whole list of events.
#![tactic(auto)]

mod connection;
mod connections;
mod counts;
mod event;
mod history;
mod intake;
mod job;
mod keys;
mod laws;
mod outbox;
mod queue;
mod service;
mod tenants;

pub use counts::Counts;
pub use event::{Event, Refused, Tell, Told};
pub use history::{ReplayFault, Step, Transcript, replay};
pub use job::Job;
pub use keys::Config;
pub use laws::{
    each_connection_converses, each_event_changes_so_much, each_request_is_told_in_time,
    each_run_serves_plainly, each_stays_in_its_profile, each_tenant_is_told_plainly,
    equal_requests_are_told_alike, equal_slices_are_told_alike, one_list_is_taken,
};
pub use service::{NewFault, Service};
pub use tenants::{Answer, Tenants, Worked};
