//! One run of a service for clients, `portsd serve`, from listening to its last round.
ghost use Rattle.std.specs.Prelude.{◌≡◌, Ok, IfOk, IfErr, OnOk};
ghost use Rattle.portsd_text.specs.declared.failure.Failure.TheVariants as failures;
ghost use Rattle.portsd_run.specs.ScriptRun.{Prints, PrintsPart};
ghost use Rattle.portsd_run.specs.ServiceRun.{ready_text, FailsToListen, FailsToServe, FinishesServing, ServesAllRounds};

use crate::command_line::Serving;
use ports_core::{Service, Tenants};
use ports_serve::{Listen, ListenFault, Wire, serve};
use portsd_text::{DONE, Failure, report, write_whole};
use std::alloc::Global;
use std::io::Write;

/// The wire of a service that listens for clients. The failure is `CannotListen` if the port isn't available,
/// and `Memory` if memory ran out.
fn listening<W>(begun: Result<W, ListenFault>) -> Result<W, Failure>
    ensures listens { IfOk result (λ wire. begun ≡ Ok wire) }
    ensures fails { FailsToListen result begun }
{
    match begun {
        Ok(wire) => Ok(wire),
        Err(ListenFault::Port) => Err(Failure::CannotListen),
        Err(ListenFault::Memory(refused)) => Err(Failure::Memory(refused)),
    }
}

/// Serves clients over a wire that listens on the port. The service begins with the config, and `K` keeps
/// the worlds of its tenants. `portsd: ready` goes to `out` once the wire listens, and the text of a
/// failure goes to `err`, as far as `err` takes it. The result is the exit status: 0 after the last round; 1
/// if memory, the store, the listening or the output failed; 2 for a fault of a key.
///
/// Failures are found in this order: keys, the start of the service, listening, the output, and memory for
/// the rounds. The clause says that the keys come first, and the output and the rounds after listening.
pub fn run_serving<K: Tenants, L: Listen, O: Write, E: Write>(
    alloc: Global,
    serving: Serving,
    net: &L,
    out: &mut O,
    err: &mut E,
) -> u8
    ensures { FinishesServing L.Wire.after L.listens_on serving (O.contents out.old)
        (O.contents out.new) (E.contents err.old) (E.contents err.new) result }
{
    match serve_clients::<K, L, O>(alloc, serving, net, out) {
        Ok(()) => DONE,
        Err(failure) => report(failure, err),
    }
}

/// Runs a service for clients: starts it, listens, says so, and serves all rounds. The error is the failure
/// that ends it early.
fn serve_clients<K: Tenants, L: Listen, O: Write>(
    alloc: Global,
    serving: Serving,
    net: &L,
    out: &mut O,
) -> Result<(), Failure>
    ensures done { OnOk result (ServesAllRounds L.Wire.after L.listens_on serving
        (O.contents out.old) (O.contents out.new)) }
    ensures failed { FailsToServe result L.listens_on serving O.contents out.old out.new }
{
    let Serving {
        port,
        rounds,
        config,
    } = serving;
    let service = Service::<K>::new(alloc, config)?;
    let mut wire = listening(net.listen(alloc, port))?;
    say_ready(out)?;
    let _served = serve(alloc, &mut wire, service, rounds)?;
    Ok(())
}

/// Says on the output that clients are served: `portsd: ready`.
fn say_ready<O: Write>(out: &mut O) -> Result<(), Failure>
    ensures said { Prints result ready_text O.contents out.old out.new }
    ensures fails { IfErr result (λ failure. failure ≡ failures.CannotWrite) }
    ensures front { PrintsPart result ready_text O.contents out.old out.new }
{
    match write_whole(out, "portsd: ready\n".as_bytes()) {
        Ok(()) => Ok(()),
        Err(_) => Err(Failure::CannotWrite),
    }
}
