//! The subjects of worked cases: the things that lines of a case set up and ask, and which call each line
//! means.
use crate::service::StoredService;
use crate::{
    cut_streams, failing_files, failing_streams, http_calls, loopback_client, plain_requests,
    program_runs, service, service_requests, slow_client, turn_orders, visitors,
};
use case_lines::{Answer, Bench, Ran, Trouble};
use index_store::IndexStore;
use make_cases::Setup;
use ports_http::Method;
use std::alloc::{AllocError, Global};
use std::net::Net;
use tenant_store::TenantStore;

/// The subjects of worked cases: what lines without `=>` set up for the lines after them, and a network for
/// clients.
#[derive(Drop)]
pub struct Subjects<'a, N: Net> {
    alloc: Global,
    net: &'a N,
    setup: Setup,
    stores: Option<Vec<TenantStore>>,
    rows: Option<IndexStore>,
    service: Option<StoredService>,
}

impl<'a, N: Net> Subjects<'a, N> {
    /// Subjects of worked cases of which nothing is set up yet. It fails only if there is no memory for them.
    pub fn new(alloc: Global, net: &'a N) -> Result<Subjects<'a, N>, AllocError> {
        Ok(Subjects {
            alloc,
            net,
            setup: Setup::new(alloc)?,
            stores: None,
            rows: None,
            service: None,
        })
    }

    /// What the call of a worked case gives if its subject is a store, rows, a service or ports.
    fn answer_of_other(&mut self, call: &str, given: &[Vec<u8>]) -> Result<Answer, Trouble> {
        if let Some(call) = call.strip_prefix("store ") {
            return self.answer_of_store(call, given);
        }
        if let Some(call) = call.strip_prefix("rows ") {
            return self.answer_of_rows(call, given);
        }
        match call.strip_prefix("service ") {
            Some(call) => self.answer_of_service(call, given),
            None => port_cases::answer(self.alloc, &mut self.setup, call, given),
        }
    }

    /// What a call `rows ..` of a worked case gives, if rows are set up as a subject.
    fn answer_of_rows(&mut self, call: &str, given: &[Vec<u8>]) -> Result<Answer, Trouble> {
        match &mut self.rows {
            Some(rows) => store_cases::rows::answer(self.alloc, rows, call, given),
            None => Err(Trouble::NoCase),
        }
    }

    /// What a call `store ..` of a worked case gives, if stores are set up as a subject.
    fn answer_of_store(&mut self, call: &str, given: &[Vec<u8>]) -> Result<Answer, Trouble> {
        match &mut self.stores {
            Some(stores) => store_cases::answer(self.alloc, stores, call, given),
            None => Err(Trouble::NoCase),
        }
    }

    /// What a call `service ..` of a worked case gives, if a service is set up as a subject.
    fn answer_of_service(&mut self, call: &str, given: &[Vec<u8>]) -> Result<Answer, Trouble> {
        match &mut self.service {
            Some(service) => service_requests::answer(self.alloc, service, call, given),
            None => Err(Trouble::NoCase),
        }
    }
}

impl<N: Net> Bench for Subjects<'_, N> {
    /// Drops all subjects that lines of a worked case set up.
    fn clear(&mut self) -> Result<(), AllocError> {
        self.setup = Setup::new(self.alloc)?;
        self.stores = None;
        self.rows = None;
        self.service = None;
        Ok(())
    }

    /// Sets up the subject that a line of a worked case without `=>` says: stores, rows, a service, or what
    /// cases of makefiles set up.
    fn set_up(&mut self, call: &str, given: &[Vec<u8>]) -> Result<(), Trouble> {
        match call {
            "empty stores" => self.stores = Some(store_cases::empty(self.alloc)?),
            "empty rows" => self.rows = Some(store_cases::rows::empty(self.alloc)?),
            "new service" => self.service = Some(service::new_service(self.alloc, given)?),
            _ => self.setup.set_up(call, given)?,
        }
        Ok(())
    }

    /// What the call of a worked case's line gives, by the subject that the call names.
    fn answer(&mut self, call: &str, given: &[Vec<u8>]) -> Result<Answer, Trouble> {
        let alloc = self.alloc;
        match call {
            "GET" => plain_requests::request(alloc, &mut self.setup.world, Method::Get, given),
            "PUT" => plain_requests::request(alloc, &mut self.setup.world, Method::Put, given),
            "DELETE" => plain_requests::request(
                alloc,
                &mut self.setup.world,
                Method::Delete,
                given,
            ),
            "GET failing" => failing_files::answered(alloc, &mut self.setup.world, given),
            "turn failing" => failing_files::turned(alloc, &mut self.setup.world, given),
            "rests" => plain_requests::rests(alloc, &mut self.setup.world, given),
            "bound" => plain_requests::bound(alloc, &mut self.setup.world, given),
            "stream" => http_calls::stream(alloc, given),
            "stream by bytes" => http_calls::stream_by_bytes(alloc, given),
            "reply file" => http_calls::file_reply(alloc, given),
            "reply method" => http_calls::method_reply(alloc),
            "reply head" => http_calls::head_reply(alloc),
            "reply key" => http_calls::key_reply(alloc),
            "reply store" => http_calls::store_reply(alloc),
            "run on" => program_runs::run(alloc, given),
            "refused on" => program_runs::run_refused(alloc, given),
            "input failing after" => failing_streams::failing_input(alloc, given),
            "serve on within" => failing_streams::narrow_serving(alloc, given),
            "trickle" => slow_client::trickled(alloc, given),
            "narrow output" => failing_streams::narrow_output(alloc, given),
            "print" => failing_streams::printed_steps(alloc, given),
            "open and end" => program_runs::open_and_end(alloc, given),
            "after at" => service::after(alloc, given),
            "ends of" => cut_streams::ends_of(alloc, given),
            "by bytes" => cut_streams::by_bytes(alloc, given),
            "any order of with" => turn_orders::any_order(alloc, given),
            "loopback" => loopback_client::answered(alloc, self.net, given),
            "visits by" => visitors::served(alloc, self.net, given),
            "listen" => visitors::listens(alloc, self.net),
            _ => self.answer_of_other(call, given),
        }
    }

    /// Runs the program for a worked case that is a script.
    fn run(&mut self, words: &str, input: &[u8]) -> Result<Ran, Trouble> {
        program_runs::run_program(self.alloc, words, input)
    }
}
