//! One run of the program, from the words of its command line to its exit status.
ghost use Rattle.clap.specs.Words.{kind_of};
ghost use Rattle.portsd_run.specs.CommandLine.{seen, EndsUnasked, RunsMain, RunsOver};
ghost use Rattle.portsd_run.specs.ScriptRun.{io_bytes};

use crate::command_line::{Invocation, read_command};
use crate::script_run::run_config;
use crate::service_run::run_serving;
use clap::Error;
use clap::error::ErrorKind;
use ports_core::Tenants;
use ports_serve::Listen;
use portsd_text::{DONE, Failure, REFUSED, report};
use refusals::{Library, OutOfMemory};
use std::alloc::Global;
use std::io::{Read, Write};
use std::process::ExitCode;

/// Runs the program over worlds that `K` keeps. It takes the words of its command line, the first being its
/// name, a reader for a script, and what listens for clients. What the run prints goes to `out`, and the
/// texts of faults go to `err`.
///
/// The result is the exit status: 0; 1 if memory, the store, the listening or the output failed; 2 for a
/// fault of usage, of a key, or of the script.
///
/// Faults are found in this order: usage, keys, the script, the start of the service, listening, the run.
/// In a script, an event that isn't allowed stops the run, after what the earlier ones printed.
pub fn run_command<K: Tenants, R: Read, O: Write, E: Write, L: Listen>(
    alloc: Global,
    words: &[String],
    reader: &mut R,
    out: &mut O,
    err: &mut E,
    net: &L,
) -> u8
    ensures { RunsOver L.Wire.after L.listens_on words.now
        (io_bytes R.remaining reader.old reader.new O.contents out.old out.new)
        (seen E.contents err.old err.new) result }
{
    match read_command(alloc, words) {
        Ok(Invocation::Replay(config)) => run_config::<K, R, O, E>(alloc, config, reader, out, err),
        Ok(Invocation::Serve(serving)) => run_serving::<K, L, O, E>(alloc, serving, net, out, err),
        Err(error) => answer(&error, out, err),
    }
}

/// Runs the program as `run_command` does, with the exit status as `main` returns it.
pub fn run_program<K: Tenants, R: Read, O: Write, E: Write, L: Listen>(
    alloc: Global,
    words: &[String],
    reader: &mut R,
    out: &mut O,
    err: &mut E,
    net: &L,
) -> ExitCode
    ensures { RunsMain L.Wire.after L.listens_on words.now
        (io_bytes R.remaining reader.old reader.new O.contents out.old out.new)
        (seen E.contents err.old err.new) result }
{
    let status = run_command::<K, R, O, E, L>(alloc, words, reader, out, err, net);
    ExitCode::from(status)
}

/// The library of the command line. There are no values of it: it stands for the errors of its calls.
enum Clap {}

impl Library for Clap {
    ghost use Rattle.std.specs.Prelude.{◌≡◌};
    ghost use Rattle.clap.specs.declared.error.kind.ErrorKind.TheVariants.{OutOfMemory};

    type Error = Error;

    ghost for_memory = { λ error. kind_of error ≡ OutOfMemory };

    /// Whether the library of the command line failed since memory ran out.
    fn is_for_memory(error: &Error) -> bool {
        error.kind() == ErrorKind::OutOfMemory
    }
}

/// Prints the program's help, or says why the words of the command line ask for no run, and gives the exit
/// status.
fn answer<O: Write, E: Write>(error: &Error, out: &mut O, err: &mut E) -> u8
    ensures { EndsUnasked (kind_of error.now) (O.contents out.old) (O.contents out.new)
        (E.contents err.old) (E.contents err.new) result }
{
    if let Some(refused) = OutOfMemory::told_by::<Clap>(error) {
        return report(Failure::Memory(refused), err);
    }
    match error.kind() {
        ErrorKind::DisplayHelp | ErrorKind::DisplayVersion => match write!(out, "{error}") {
            Ok(()) => DONE,
            Err(_) => report(Failure::CannotWrite, err),
        },
        _ => {
            let _ = write!(err, "{error}");
            REFUSED
        }
    }
}
