//! Worked cases of runs of the program: what a run prints and says, and with what status it ends.
use crate::never_kept::NeverKept;
use crate::quiet_ports::QuietPorts;
use case_lines::{Answer, Ran, Trouble, as_number, as_text};
use ports_core::Tenants;
use portsd_run::run_command;
use std::alloc::{AllocError, Global};
use std::fmt::Write;
use stored_tenants::StoredTenants;

/// Runs the program for a worked case on an input, with these words of its command line after its own name.
pub fn run_program(alloc: Global, words: &str, input: &[u8]) -> Result<Ran, Trouble> {
    run_over::<StoredTenants>(alloc, words, input)
}

/// Runs the program for a worked case over the worlds that `K` keeps, on an input, with these words of its
/// command line after its own name.
fn run_over<K: Tenants>(alloc: Global, words: &str, input: &[u8]) -> Result<Ran, Trouble> {
    let mut arguments = Vec::new(alloc);
    arguments.push(String::from_str(alloc, "portsd")?)?;
    for word in words.split(' ') {
        if !word.is_empty() {
            arguments.push(String::from_str(alloc, word)?)?;
        }
    }
    let mut printed = Vec::new(alloc);
    let mut said = Vec::new(alloc);
    let mut reader = input;
    let status = run_command::<K, _, _, _, _>(
        alloc,
        arguments.as_slice(),
        &mut reader,
        &mut printed,
        &mut said,
        &QuietPorts,
    );
    Ok(Ran {
        status,
        printed,
        said,
    })
}

/// The call `run WORDS INPUT` of a worked case of runs: the status of the program, what it prints, and what
/// it says on standard error.
pub fn run(alloc: Global, given: &[Vec<u8>]) -> Result<Answer, Trouble> {
    let [words, input] = given else {
        return Err(Trouble::NoCase);
    };
    Ok(ran_answer(alloc, run_program(alloc, as_text(words)?, input)?))
}

/// The call `refused WORDS on INPUT` of a worked case of runs: the status of the program, what it prints and
/// what it says, if its service can't begin, since what keeps the worlds refuses. If one parse is to be kept,
/// there is no memory for it.
pub fn run_refused(alloc: Global, given: &[Vec<u8>]) -> Result<Answer, Trouble> {
    let [words, input] = given else {
        return Err(Trouble::NoCase);
    };
    Ok(ran_answer(
        alloc,
        run_over::<NeverKept<StoredTenants>>(alloc, as_text(words)?, input)?,
    ))
}

/// A run of the program as the answer of a worked case: its status, what it printed, and what it said.
fn ran_answer(alloc: Global, ran: Ran) -> Answer {
    let mut answer = status_answer(alloc, ran.status);
    answer.text(ran.printed.as_slice());
    answer.text(ran.said.as_slice());
    answer
}

/// The status with which a run of the program ended, as the answer of a worked case.
pub fn status_answer(alloc: Global, status: u8) -> Answer {
    let mut answer = Answer::of_word(alloc, "status");
    answer.number(u64::from(status));
    answer
}

/// The call `open and end N` of a worked case of runs: how many connections close if so many are opened and
/// ended one after another and then one more is opened; `refused` if one wasn't opened.
pub fn open_and_end(alloc: Global, given: &[Vec<u8>]) -> Result<Answer, Trouble> {
    let [count] = given else {
        return Err(Trouble::NoCase);
    };
    let script = opening_and_ending(alloc, as_number(count)?)?;
    let ran = run_program(alloc, "replay alpha", script.as_bytes())?;
    let printed = as_text(&ran.printed)?;
    let closed = printed.lines().filter(|line| line.contains(" closed "));
    let mut answer = Answer::new(alloc);
    answer.number(closed.count() as u64);
    if printed.contains("refused") {
        answer.word("refused");
    }
    Ok(answer)
}

/// A script for a run of the program that opens and ends so many connections, and opens one more.
fn opening_and_ending(alloc: Global, count: u64) -> Result<String, AllocError> {
    let mut script = String::new(alloc);
    for conn in 0..count {
        write!(script, "open {conn}\nend {conn}\n")?;
    }
    write!(script, "open {count}\n")?;
    Ok(script)
}
