//! `worked_cases` reads files of cases, calls the layer that each case names, and prints the cases that
//! differ and how many there were. The words of its command line name the files; if there is none, it
//! reads standard input. The files are in the folder `data` beside this program, one a layer, each with
//! a list of its calls on top.
#![tactic(auto)]

mod cut_streams;
mod failing_files;
mod failing_streams;
mod http_calls;
mod interrupted;
mod loopback_client;
mod never_kept;
mod plain_requests;
mod program_runs;
mod quiet_ports;
mod request_turns;
mod service;
mod service_requests;
mod slow_client;
mod socket_clients;
mod subjects;
mod turn_orders;
mod visitors;

use case_lines::{Bench, Cases};
use portsd_host::words_given;
use std::{fs, io};
use subjects::Subjects;

/// Runs the program of worked cases: takes the files of cases that its words name, or standard input.
fn main(rt: HostRuntime) -> io::Result<()> {
    let words = words_given(&rt)?;
    let subjects = Subjects::new(rt.alloc(), &rt)?;
    take_files(&rt, &words, Cases::new(rt.alloc(), subjects))
}

/// Takes the files of worked cases that the words name after the first, or standard input if they name none.
/// It prints what is wrong, and how many cases there are.
fn take_files<B: Bench>(rt: &HostRuntime, words: &[String], cases: Cases<B>) -> io::Result<()> {
    let mut cases = cases;
    if words.len() < 2 {
        let input = io::read_to_string(rt.alloc(), rt.reader())?;
        take_file(rt, &mut cases, "standard input", input.as_str())?;
    }
    for name in words.iter().skip(1) {
        let input = fs::read_to_string(rt, name.as_str())?;
        take_file(rt, &mut cases, name.as_str(), input.as_str())?;
    }
    let count = cases.count();
    let wrong = cases.wrong();
    println!(rt; "{count} cases, {wrong} differ")
}

/// Takes each line of a file of worked cases, and prints what is wrong.
fn take_file<B: Bench>(
    rt: &HostRuntime,
    cases: &mut Cases<B>,
    name: &str,
    input: &str,
) -> io::Result<()> {
    cases.begin_file(name)?;
    for line in input.lines() {
        tell(rt, cases.take(line)?)?;
    }
    tell(rt, cases.end_file()?)
}

/// Prints what is wrong with a worked case, if something is.
fn tell(rt: &HostRuntime, wrong: Option<String>) -> io::Result<()> {
    match wrong {
        Some(wrong) => println!(rt; "{wrong}"),
        None => Ok(()),
    }
}
