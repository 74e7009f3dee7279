//! `portsd`: an index over OpenBSD ports trees for several tenants. `portsd serve` answers clients over
//! HTTP on 127.0.0.1. `portsd replay` runs a script of events over the service and prints the replies and
//! the bytes that were sent.
#![tactic(auto)]

use portsd_host::{Loopback, words_given};
use portsd_run::run_program;
use std::io;
use std::process::ExitCode;
use stored_tenants::StoredTenants;

/// Runs the program `portsd`: hands its words, its streams and what listens to `portsd_run`, with
/// `StoredTenants` to keep the worlds.
fn main(rt: HostRuntime) -> ExitCode {
    let alloc = rt.alloc();
    let Ok(words) = words_given(&rt) else {
        let _ = eprintln!(rt; "portsd: out of memory");
        return ExitCode::from(1);
    };
    run_program::<StoredTenants, _, _, _, _>(
        alloc,
        words.as_slice(),
        &mut rt.reader(),
        &mut io::writer(&rt),
        &mut rt.stderr(),
        &Loopback::new(&rt),
    )
}
