//! The failures that end a run of the program early: what is said of each, and its exit status.
ghost use Rattle.std.specs.Prelude.{◌≡◌};
ghost use Rattle.refusals.specs.Refused.{refused};
ghost use Rattle.portsd_text.specs.declared.failure.Failure.TheVariants as failures;
ghost use Rattle.portsd_text.specs.Output.{AppendsUpTo, WritesAll, FailsAfterFront};
ghost use Rattle.portsd_text.specs.Failures.{failure_status, failure_text, line_text, script_failure, new_failure};

use crate::output::write_whole;
use crate::script::ScriptFault;
use itoa::Buffer;
use ports_core::NewFault;
use refusals::{OutOfMemory, StoreRefusal};
use std::alloc::AllocError;
use std::io::{self, Write};

/// The exit status of a run that went well.
pub const DONE: u8 = 0;

/// The exit status if something outside failed.
const FAILED: u8 = 1;

/// The exit status if what was asked can't be done.
pub const REFUSED: u8 = 2;

/// The failure that ended a run of the program early.
#[derive(Clone, Copy, Debug)]
pub enum Failure {
    /// A key can't be one, is given twice, or is one too many; or a size is out of its limits.
    BadKey,
    /// This line of the script is in no form of a script, or couldn't be read.
    BadEvent(u64),
    /// The event of this line of the script isn't allowed.
    NotAllowed(u64),
    /// Nothing listens on the port.
    CannotListen,
    /// What was to be printed can't be written.
    CannotWrite,
    /// The store of the tenants' files failed.
    Store(StoreRefusal),
    /// There was no memory.
    Memory(OutOfMemory),
}

impl Failure {
    /// The exit status of the program after this failure.
    fn status(self) -> u8
        ensures { result ≡ failure_status self }
    {
        match self {
            Failure::BadKey | Failure::BadEvent(_) | Failure::NotAllowed(_) => REFUSED,
            Failure::CannotListen | Failure::CannotWrite | Failure::Store(_) | Failure::Memory(_) =>
                FAILED,
        }
    }
}

impl From<AllocError> for Failure {
    ghost from_gives = { λ _ failure. failure ≡ failures.Memory refused };

    /// The failure of a run for which there was no memory.
    fn from(error: AllocError) -> Failure {
        Failure::Memory(OutOfMemory::from(error))
    }
}

impl From<ScriptFault> for Failure {
    ghost from_gives = { λ fault failure. failure ≡ script_failure fault };

    /// The failure of a run whose script wasn't read.
    fn from(fault: ScriptFault) -> Failure {
        match fault {
            ScriptFault::BadEvent(line) => Failure::BadEvent(line),
            ScriptFault::Memory(refused) => Failure::Memory(refused),
        }
    }
}

impl From<NewFault> for Failure {
    ghost from_gives = { λ fault failure. failure ≡ new_failure fault };

    /// The failure of a run whose service couldn't begin.
    fn from(fault: NewFault) -> Failure {
        match fault {
            NewFault::Config => Failure::BadKey,
            NewFault::Store(refusal) => Failure::Store(refusal),
            NewFault::Memory(refused) => Failure::Memory(refused),
        }
    }
}

/// Writes the text of a run's failure, as far as it can be written, and gives its exit status.
pub fn report<E: Write>(failure: Failure, err: &mut E) -> u8
    ensures status { result ≡ failure_status failure }
    ensures said { AppendsUpTo (E.contents err.old) (E.contents err.new) (failure_text failure) }
{
    let _ = say(failure, err);
    failure.status()
}

/// Writes the text that says why a run failed.
fn say<E: Write>(failure: Failure, err: &mut E) -> io::Result<()>
    ensures written { WritesAll E.contents result err.old err.new (failure_text failure) }
    ensures front { FailsAfterFront E.contents result err.old err.new (failure_text failure) }
{
    match failure {
        Failure::BadKey => write_whole(err, "portsd: bad key\n".as_bytes()),
        Failure::BadEvent(line) => say_line(line, ": bad event\n", err),
        Failure::NotAllowed(line) => say_line(line, ": event not allowed\n", err),
        Failure::CannotListen => write_whole(err, "portsd: cannot listen\n".as_bytes()),
        Failure::CannotWrite => write_whole(err, "portsd: cannot write\n".as_bytes()),
        Failure::Store(_) => write_whole(err, "portsd: store failed\n".as_bytes()),
        Failure::Memory(_) => write_whole(err, "portsd: out of memory\n".as_bytes()),
    }
}

/// Writes the text of a failure that names a line of the script.
fn say_line<E: Write>(line: u64, what: &str, err: &mut E) -> io::Result<()>
    ensures written { WritesAll E.contents result err.old err.new (line_text line what.now) }
    ensures front { FailsAfterFront E.contents result err.old err.new (line_text line what.now) }
{
    let mut number = Buffer::new();
    write_whole(err, "portsd: line ".as_bytes())?;
    write_whole(err, number.format(line).as_bytes())?;
    write_whole(err, what.as_bytes())
}
