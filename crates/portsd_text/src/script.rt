//! Scripts of events, read from an input.
ghost use Rattle.std.specs.Prelude.{◌≡◌, slice_get, IfOk, IfErr, OnOk};
ghost use Rattle.refusals.specs.Refused.{refused};
ghost use Rattle.portsd_text.specs.declared.script.ScriptFault.TheVariants as faults;
ghost use Rattle.portsd_text.specs.Entries.{entry_of_event};
ghost use Rattle.portsd_text.specs.Scripts.{script_of, numbered, IsFaultOf, FailsToRead, GivesScript, GivesReading};
ghost use Rattle.portsd_text.specs.Scripts.{IsPaired, LendsEntry, AddsEntry, AddsLine, FailsAtLine, FailsForMemory};
ghost use Rattle.portsd_text.specs.Scripts.{CutsFirstLine, LeavesLess};

use crate::input::read_input;
use crate::script_lines::read_event;
use ports_core::Event;
use refusals::OutOfMemory;
use std::alloc::{AllocError, AllocFailed, Global};
use std::io::Read;
use thiserror::Error;

/// Why a script of events wasn't read.
#[derive(Clone, Copy, Debug, PartialEq, Eq, Error)]
pub enum ScriptFault {
    /// This line, counted from 1, is in no form of a script, or couldn't be read.
    #[error("line {0} is no event")]
    BadEvent(u64),
    /// There was no memory for the script.
    #[error("out of memory")]
    Memory(OutOfMemory),
}

impl From<AllocError> for ScriptFault {
    ghost from_gives = { λ _ fault. fault ≡ faults.Memory refused };

    /// The fault that a script wasn't read since there was no memory.
    fn from(error: AllocError) -> ScriptFault {
        ScriptFault::Memory(OutOfMemory::from(error))
    }
}

impl<T: Drop> From<AllocFailed<T>> for ScriptFault {
    ghost from_gives = { λ _ fault. fault ≡ faults.Memory refused };

    /// The fault that a script wasn't read since there was no memory for one more event.
    fn from(error: AllocFailed<T>) -> ScriptFault {
        ScriptFault::Memory(OutOfMemory::from(error))
    }
}

/// The events of a script, and the line of each, counted from 1, at the same place of `lines`.
#[derive(Drop)]
pub struct Script {
    pub lines: Vec<u64>,
    pub events: Vec<Event>,
}

impl Script {
    /// The event at this place of the script, with its line before it. `None` if the script ends before this
    /// place.
    pub fn entry(&self, index: usize) -> Option<(u64, &Event)>
        ensures { LendsEntry result (slice_get (numbered self.now) index) }
    {
        let line = self.lines.get(index)?;
        let event = self.events.get(index)?;
        Some((*line, event))
    }

    /// Adds an event with its line to the script. The only error is `Memory`.
    fn push(&mut self, line: u64, event: Event) -> Result<(), ScriptFault>
        requires { IsPaired self.old }
        ensures added { AddsEntry result self.old self.new (line, entry_of_event event) }
        ensures paired { OnOk result (IsPaired self.new) }
        ensures err { FailsForMemory result }
    {
        self.lines.push(line)?;
        self.events.push(event)?;
        Ok(())
    }
}

/// Reads a whole script of events: the events with their lines. Empty lines and lines that begin with `#` are
/// passed over, but counted.
///
/// `BadEvent` names the first line that is in no form of a script. If a read fails, the line where it
/// failed is a bad one. So is the last line so far, if the input hasn't ended after 4,294,967,296 reads.
/// The error is `Memory` if there is none for the bytes or for the events.
pub fn read_script<R: Read>(alloc: Global, reader: &mut R) -> Result<Script, ScriptFault>
    ensures ok { GivesScript result (R.remaining reader.old) (R.remaining reader.new) }
    ensures err { IfErr result (FailsToRead (R.remaining reader.old) (R.remaining reader.new)) }
    ensures paired { IfOk result IsPaired }
{
    let given = read_input(alloc, reader)?;
    read_lines(alloc, given.text.as_slice(), given.whole)
}

/// The script that a text is: the event of each line. If the text isn't whole, its last line is a bad one.
fn read_lines(alloc: Global, text: &[u8], whole: bool) -> Result<Script, ScriptFault>
    ensures ok { GivesReading result (script_of whole text.now) }
    ensures paired { IfOk result IsPaired }
    ensures err { IfErr result (IsFaultOf (script_of whole text.now)) }
{
    let mut script = Script {
        lines: Vec::new(alloc),
        events: Vec::new(alloc),
    };
    let mut rest = text;
    let mut line = 1;
    while let Some((front, later)) = first_line(rest) {
        push_line(alloc, &mut script, line, front)?;
        rest = later;
        line += 1;
    }
    if !whole {
        return Err(ScriptFault::BadEvent(line));
    }
    push_line(alloc, &mut script, line, rest)?;
    Ok(script)
}

/// The first line of a script's text, and the text after the line feed that ends it. `None` if the text has
/// no line feed.
fn first_line(text: &[u8]) -> Option<(&[u8], &[u8])>
    ensures lines { CutsFirstLine result text.now }
    ensures shorter { LeavesLess result text.now }
{
    let end = text.iter().position(|byte| *byte == b'\n')?;
    Some((&text[..end], &text[end + 1..]))
}

/// Adds the event of a line to the script, unless the line is passed over.
fn push_line(alloc: Global, script: &mut Script, line: u64, text: &[u8]) -> Result<(), ScriptFault>
    requires { IsPaired script.old }
    ensures ok { AddsLine result script.old script.new line text.now }
    ensures paired { OnOk result (IsPaired script.new) }
    ensures err { FailsAtLine result line text.now }
{
    if text.is_empty() || text.starts_with(b"#") {
        return Ok(());
    }
    match read_event(alloc, text)? {
        Some(event) => script.push(line, event),
        None => Err(ScriptFault::BadEvent(line)),
    }
}
