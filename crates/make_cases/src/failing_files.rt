//! Failing files, for cases of makefiles, ports and requests: files in memory that fail after so many calls.
ghost use Rattle.std.specs.Prelude.{◌≡◌, ◌+◌, IfErr, OnOk, OnErr};
ghost use Rattle.mk_paths.specs.FilesView.{Fails};
ghost use Rattle.make_cases.specs.FailingFiles.{view_of};

use case_lines::{Answer, Trouble, no_memory, no_statement};
use mk_files::{Content, Files, Listing, MemoryFiles};
use mk_paths::{FilesFault, Name, Names};
use std::alloc::Global;

/// More calls of failing files than a case makes.
const MOST_CALLS: u64 = 1000;

/// Failing files for cases: files in memory that answer so many calls, and fail at each one after them.
#[derive(Drop)]
pub struct FailingFiles<'a> {
    files: &'a mut MemoryFiles,
    /// With what they fail.
    fault: FilesFault,
    /// How many calls they still answer.
    calls: u64,
    failures: u64,
}

impl FailingFiles<'_> {
    /// Counts a call of failing files in a case. If none is left, it fails.
    fn call(&mut self) -> Result<(), FilesFault>
        ensures called { OnOk result (view_of self.new ≡ view_of self.old) }
        ensures calls { OnOk result (self.old.calls ≡ self.new.calls + 1) }
        ensures counted { OnErr result (Fails (view_of self.old) (view_of self.new)) }
        ensures fails { IfErr result (λ fault. self.old.calls ≡ 0 × (fault ≡ self.old.fault)) }
    {
        if self.calls == 0 {
            return Err(self.failed(self.fault));
        }
        self.calls -= 1;
        Ok(())
    }

    /// Counts one more failure of failing files in a case, with this fault.
    fn failed(&mut self, fault: FilesFault) -> FilesFault
        ensures counted { Fails (view_of self.old) (view_of self.new) }
        ensures fault { result ≡ fault }
    {
        self.failures = self.failures.saturating_add(1);
        fault
    }
}

impl Names for FailingFiles<'_> {
    ghost use Rattle.make_cases.specs.FailingFiles.{view_of, IsAnyFault};

    ghost view = { view_of };

    ghost fails_with = { IsAnyFault };

    /// Whether failing files have a file of this name. If no call is left, they fail.
    fn has(&mut self, name: &Name) -> Result<bool, FilesFault> {
        self.call()?;
        match self.files.has(name) {
            Ok(there) => Ok(there),
            Err(fault) => Err(self.failed(fault)),
        }
    }
}

impl Files for FailingFiles<'_> {
    /// The content that failing files have under this name. If no call is left, they fail.
    fn read(&mut self, name: &Name) -> Result<Option<Content>, FilesFault> {
        self.call()?;
        match self.files.read(name) {
            Ok(content) => Ok(content),
            Err(fault) => Err(self.failed(fault)),
        }
    }
}

impl Listing for FailingFiles<'_> {
    /// The names of all files that failing files have. If no call is left, they fail.
    fn names(&mut self, alloc: Global) -> Result<Vec<String>, FilesFault> {
        self.call()?;
        match self.files.names(alloc) {
            Ok(names) => Ok(names),
            Err(fault) => Err(self.failed(fault)),
        }
    }
}

/// What a case asks of failing files.
pub trait Asking {
    /// What failing files give to what a case asks. The outer error is the fault of the files.
    fn ask(
        &mut self,
        alloc: Global,
        files: &mut FailingFiles<'_>,
    ) -> Result<Result<Answer, Trouble>, FilesFault>;
}

/// What a case gives over failing files: files that fail at their first call, then at their second one, and
/// so on, until they fail at none. It says how many calls they answer then, and the answer.
///
/// Before that comes `wrong` with the number of calls that were answered, if the fault wasn't that of the
/// files, or if they were called again after it. Each call fails with either fault in turn. If that of memory
/// makes another answer, that follows after `or`.
pub fn failing_answer<A: Asking>(
    alloc: Global,
    files: &mut MemoryFiles,
    asking: &mut A,
) -> Result<Answer, Trouble> {
    let mut answer = answer_after(alloc, files, no_statement(alloc), asking)?;
    let other = answer_after(alloc, files, FilesFault::Memory(no_memory(alloc)?), asking)?;
    if !answer.is_same(&other)? {
        answer.word("or");
        answer.word(other.whole()?);
    }
    Ok(answer)
}

/// What a case gives over failing files whose calls fail with this one fault, for `failing_answer`.
fn answer_after<A: Asking>(
    alloc: Global,
    files: &mut MemoryFiles,
    fault: FilesFault,
    asking: &mut A,
) -> Result<Answer, Trouble> {
    let mut answer = Answer::new(alloc);
    for calls in 0..MOST_CALLS {
        let mut failing = FailingFiles {
            files: &mut *files,
            fault,
            calls,
            failures: 0,
        };
        match asking.ask(alloc, &mut failing) {
            Ok(found) if failing.failures == 0 => {
                answer.number(calls);
                answer.word(found?.whole()?);
                return Ok(answer);
            }
            Err(found) if failing.failures == 1 && found == fault => {}
            _ => {
                answer.word("wrong");
                answer.number(calls);
            }
        }
    }
    Err(Trouble::NoCase)
}
