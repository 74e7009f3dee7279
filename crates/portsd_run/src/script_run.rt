//! One run of a script of events, `portsd replay`, from its input to its output.
ghost use Rattle.std.specs.Prelude.{◌≡◌, true, OnOk, IfErr, vec_len};
ghost use Rattle.ports_core.specs.Keys.{is_fit};
ghost use Rattle.portsd_run.specs.ScriptRun.{io_bytes, run_text, Completes, CutsShort, Ends, EndsScriptEarly, Finishes};
ghost use Rattle.portsd_run.specs.ScriptRun.{Prints, RunsScript};
ghost use Rattle.portsd_run.specs.RunReport.{FailsByRun, ReportsRun};

use ports_core::{Config, ReplayFault, Step, Tenants, Transcript, replay};
use portsd_text::{DONE, Failure, Script, read_script, report, transcript_text, write_whole};
use std::alloc::Global;
use std::io::{Read, Write};

/// Reads a script to its end, and runs it over a service that begins with the config. `K` keeps the worlds
/// of the tenants. The effects of the events go to `out`: the bytes sent, the replies, and the connections
/// that are refused or close. The text of a failure goes to `err`, as far as `err` takes it. The result is the
/// exit status: 0; 1 if memory, the store or the output failed; 2 for a fault of a key or of the script.
///
/// Failures are found in this order: keys, the script, the start of the service, the run, the output. An
/// event that isn't allowed stops the run, after what the earlier ones printed. Each byte is written once,
/// from the first on, up to where the output failed.
pub fn run_config<K: Tenants, R: Read, O: Write, E: Write>(
    alloc: Global,
    config: Config,
    reader: &mut R,
    out: &mut O,
    err: &mut E,
) -> u8
    ensures { Finishes config (io_bytes R.remaining reader.old reader.new O.contents out.old
        out.new) (E.contents err.old) (E.contents err.new) result }
{
    match run::<K, R, O>(alloc, config, reader, out) {
        Ok(()) => DONE,
        Err(failure) => report(failure, err),
    }
}

/// Reads a script of events, runs it over a service that begins with the config, and prints the effects of
/// its events. The error is the failure that ends it early.
fn run<K: Tenants, R: Read, O: Write>(
    alloc: Global,
    config: Config,
    reader: &mut R,
    out: &mut O,
) -> Result<(), Failure>
    ensures done { OnOk result (Completes config
        (io_bytes R.remaining reader.old reader.new O.contents out.old out.new)) }
    ensures failed { IfErr result (Ends config
        (io_bytes R.remaining reader.old reader.new O.contents out.old out.new)) }
{
    if !config.is_fit() {
        return Err(Failure::BadKey);
    }
    let script = read_script(alloc, reader)?;
    run_script::<K, O>(alloc, config, &script, out)
}

/// Runs a script over a service that begins with a config that is fit, and prints the effects of its
/// events. The error is the failure that ends it early.
fn run_script<K: Tenants, O: Write>(
    alloc: Global,
    config: Config,
    script: &Script,
    out: &mut O,
) -> Result<(), Failure>
    requires fit { is_fit config ≡ true }
    requires paired { vec_len script.now.lines ≡ vec_len script.now.events }
    ensures done { RunsScript result config script.now O.contents out.old out.new }
    ensures failed { EndsScriptEarly result config script.now O.contents out.old out.new }
{
    let ran = replay::<K>(alloc, config, script.events.as_slice());
    print_run(alloc, script, ran, out)
}

/// Prints the effects of a script's events that happened in the run. The error is the failure that ended the
/// run, or that of the output.
fn print_run<K: Tenants, O: Write>(
    alloc: Global,
    script: &Script,
    ran: Result<Transcript<K>, ReplayFault<K>>,
    out: &mut O,
) -> Result<(), Failure>
    ensures done { ReportsRun result script.now ran O.contents out.old out.new }
    ensures failed { FailsByRun result script.now ran O.contents out.old out.new }
{
    match ran {
        Ok(done) => print(alloc, script, done.steps.as_slice(), out),
        Err(ReplayFault::NotAllowed { index, done }) => {
            print(alloc, script, done.steps.as_slice(), out)?;
            let line = script.lines.get(index).copied().unwrap_or(0);
            Err(Failure::NotAllowed(line))
        }
        Err(ReplayFault::New(fault)) => Err(Failure::from(fault)),
        Err(ReplayFault::Memory(refused)) => Err(Failure::Memory(refused)),
    }
}

/// Prints the effects of the events of a script's run whose steps these are.
fn print<O: Write>(
    alloc: Global,
    script: &Script,
    steps: &[Step],
    out: &mut O,
) -> Result<(), Failure>
    ensures done { Prints result (run_text script.now steps.now) O.contents out.old out.new }
    ensures failed { CutsShort result (run_text script.now steps.now) O.contents out.old out.new }
{
    let text = transcript_text(alloc, script, steps)?;
    match write_whole(out, text.as_bytes()) {
        Ok(()) => Ok(()),
        Err(_) => Err(Failure::CannotWrite),
    }
}
