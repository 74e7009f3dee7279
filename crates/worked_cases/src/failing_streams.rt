//! Worked cases of failing streams: inputs and outputs of the program that fail, and printed steps that no
//! run can be made to take.
use crate::interrupted::Interrupted;
use crate::program_runs::status_answer;
use crate::quiet_ports::QuietPorts;
use crate::service::config_of_one;
use case_lines::{Answer, FailingReader, FailingWriter, Ran, Trouble, as_number, no_memory};
use ports_core::{Refused, Step, Tell, Told};
use ports_http::Reply;
use portsd_run::{Serving, run_config, run_serving};
use portsd_text::{ScriptFault, read_script, transcript_text};
use refusals::OutOfMemory;
use std::alloc::Global;
use stored_tenants::StoredTenants;

/// The call `input SCRIPT failing after N` of a worked case of failing streams: the fault of a script whose
/// input gives five bytes at a read and fails after so many reads, or how many events were read. Each read is
/// interrupted once before it is answered.
pub fn failing_input(alloc: Global, given: &[Vec<u8>]) -> Result<Answer, Trouble> {
    let [script, reads] = given else {
        return Err(Trouble::NoCase);
    };
    let mut input = Interrupted::new(FailingReader {
        rest: script.as_slice(),
        reads: as_number(reads)?,
    });
    let mut answer = Answer::new(alloc);
    match read_script(alloc, &mut input) {
        Ok(script) => answer.number(script.events.len() as u64),
        Err(ScriptFault::BadEvent(line)) => {
            answer.word("BadEvent");
            answer.number(line);
        }
        Err(ScriptFault::Memory(refused)) => return Err(Trouble::Memory(refused)),
    }
    Ok(answer)
}

/// The call `narrow output SCRIPT PRINTED` of a worked case of failing streams: how many bytes a run writes,
/// if its output takes one byte at a write and all that is to be printed. Before that there are runs in which
/// each write fails in turn.
///
/// If one of these runs ends with another status than 1, writes other bytes than those before its failing
/// write, or says anything but that it can't write, it gives `wrong` and that write's number. Each write is
/// interrupted once before it is answered.
pub fn narrow_output(alloc: Global, given: &[Vec<u8>]) -> Result<Answer, Trouble> {
    let [script, printed] = given else {
        return Err(Trouble::NoCase);
    };
    let mut answer = Answer::new(alloc);
    for writes in 0..printed.len() {
        let ran = run_narrow(alloc, script, writes)?;
        if !ran.is(1, &printed[..writes], b"portsd: cannot write\n") {
            answer.word("wrong");
            answer.number(writes as u64);
        }
    }
    let ran = run_narrow(alloc, script, printed.len())?;
    if !ran.is(0, printed, b"") {
        answer.word("wrong");
    }
    answer.number(ran.printed.len() as u64);
    Ok(answer)
}

/// The call `serve on PORT within N` of a worked case of failing streams: how a service for clients ends on
/// that port: its status, what was written, and what was said. It serves one tenant for three rounds, no
/// client comes, and the output takes N bytes, one at a write.
pub fn narrow_serving(alloc: Global, given: &[Vec<u8>]) -> Result<Answer, Trouble> {
    let [port, writes] = given else {
        return Err(Trouble::NoCase);
    };
    let port = u16::try_from(as_number(port)?).map_err(|_| Trouble::NoCase)?;
    let serving = Serving {
        port,
        rounds: 3,
        config: config_of_one(alloc)?,
    };
    let mut out = FailingWriter {
        taken: Vec::new(alloc),
        writes: as_number(writes)? as usize,
    };
    let mut said = Vec::new(alloc);
    let status = run_serving::<StoredTenants, _, _, _>(
        alloc,
        serving,
        &QuietPorts,
        &mut out,
        &mut said,
    );
    let mut answer = status_answer(alloc, status);
    answer.text(out.taken.as_slice());
    answer.text(said.as_slice());
    Ok(answer)
}

/// A run of a script for one tenant whose output takes so many bytes, and fails then.
fn run_narrow(alloc: Global, script: &[u8], writes: usize) -> Result<Ran, Trouble> {
    let config = config_of_one(alloc)?;
    let mut out = Interrupted::new(FailingWriter {
        taken: Vec::new(alloc),
        writes,
    });
    let mut said = Vec::new(alloc);
    let mut input = script;
    let status = run_config::<StoredTenants, _, _, _>(
        alloc, config, &mut input, &mut out, &mut said,
    );
    let FailingWriter { taken, .. } = out.stream;
    Ok(Ran {
        status,
        printed: taken,
        said,
    })
}

/// The call `print SENT` of a worked case of failing streams: what is printed of two steps that no run can be
/// made to take. The first is refused for memory and closes connection 7. The second, a Wrote, is refused for
/// memory and sends these bytes. Each gives a reply of 403 to no tenant.
pub fn printed_steps(alloc: Global, given: &[Vec<u8>]) -> Result<Answer, Trouble> {
    let [sent] = given else {
        return Err(Trouble::NoCase);
    };
    let mut input = b"open 0\nwrote 0 all".as_slice();
    let script = read_script(alloc, &mut input).map_err(|_| Trouble::NoCase)?;
    let refused = no_memory(alloc)?;
    let first = step(refused, Vec::new(alloc), Some(7));
    let second = step(refused, sent.clone()?, None);
    let steps = vec![in alloc; first, second]?;
    let text = transcript_text(alloc, &script, steps.as_slice())?;
    Ok(Answer::of_text(alloc, text.as_str()))
}

/// A step that no run can be made to take: it is refused for memory, sends these bytes, and may close a
/// connection.
fn step(refused: OutOfMemory, sent: Vec<u8>, closed: Option<u64>) -> Step {
    let reply = Tell {
        tenant: None,
        conn: 7,
        reply: Reply::unknown_key(),
    };
    let told = Told {
        reply: Some(reply),
        refused: Some(Refused::Memory(refused)),
        closed,
        units: 0,
        checks: 0,
    };
    Step { told, sent }
}
