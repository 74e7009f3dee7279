//! The answer that a call of a case gives, in the words of a case, and why a line of a case has none.
use mk_base::{FaultKind, Stop};
use mk_paths::FilesFault;
use refusals::OutOfMemory;
use std::alloc::{AllocError, AllocFailed, Global};
use std::fmt::{Debug, Display, Write};

/// Why a line of a case has no answer.
#[derive(Clone, Copy, Debug, PartialEq, Eq)]
pub enum Trouble {
    /// The line is in no form of a case, or what it sets up can't be made.
    NoCase,
    /// There was no memory.
    Memory(OutOfMemory),
}

impl From<AllocError> for Trouble {
    /// The trouble of a case's line for which an allocation was refused.
    fn from(error: AllocError) -> Trouble {
        Trouble::Memory(OutOfMemory::from(error))
    }
}

impl<T: Drop> From<AllocFailed<T>> for Trouble {
    /// The trouble of a case's line for which the allocation of a value failed.
    fn from(error: AllocFailed<T>) -> Trouble {
        Trouble::Memory(OutOfMemory::from(error))
    }
}

impl From<FilesFault> for Trouble {
    /// The trouble of a case's line for which files failed. If their store failed, it is `NoCase`.
    fn from(fault: FilesFault) -> Trouble {
        match fault {
            FilesFault::Store(_) => Trouble::NoCase,
            FilesFault::Memory(refused) => Trouble::Memory(refused),
        }
    }
}

/// The answer of a case: words, numbers and quoted texts, with one blank between two of them. If there was no
/// memory for a part, only `whole` reports it.
#[derive(Drop)]
pub struct Answer {
    said: String,
    /// Whether there was memory for every part.
    refused: Option<OutOfMemory>,
}

impl Answer {
    /// An answer of a case that says nothing yet, for which there was memory so far.
    pub fn new(alloc: Global) -> Answer {
        Answer {
            said: String::new(alloc),
            refused: None,
        }
    }

    /// An answer of a case that is one word.
    pub fn of_word(alloc: Global, word: &str) -> Answer {
        let mut answer = Answer::new(alloc);
        answer.word(word);
        answer
    }

    /// An answer of a case that is one quoted text.
    pub fn of_text(alloc: Global, text: &str) -> Answer {
        let mut answer = Answer::new(alloc);
        answer.text(text.as_bytes());
        answer
    }

    /// An answer of a case that is one word: the first if this holds, else the second.
    pub fn of_choice(alloc: Global, holds: bool, so: &str, other: &str) -> Answer {
        Answer::of_word(alloc, if holds { so } else { other })
    }

    /// Adds a word to the answer of a case as it is.
    pub fn word(&mut self, word: &str) {
        let said = write!(self.begun(), "{word}");
        self.note(said);
    }

    /// Adds a number to the answer of a case.
    pub fn number(&mut self, number: u64) {
        let said = write!(self.begun(), "{number}");
        self.note(said);
    }

    /// Adds the name of a kind to the answer of a case, as its enum writes it.
    pub fn kind<K: Debug>(&mut self, kind: &K) {
        let said = write!(self.begun(), "{kind:?}");
        self.note(said);
    }

    /// Adds to the answer of a case why work stopped: the kind of its fault, or `Store`.
    pub fn stop(&mut self, stop: Stop<FaultKind>) {
        match stop {
            Stop::Fault(kind) => self.kind(&kind),
            Stop::Store(_) => self.word("Store"),
            Stop::Memory(refused) => self.refused = Some(refused),
        }
    }

    /// Adds bytes in quotes to the answer of a case. Bytes from 32 to 126 are as they are, except for the
    /// quote and the backslash; these two and all other bytes are escapes.
    pub fn text(&mut self, bytes: &[u8]) {
        let said = self.quote(bytes);
        self.note(said);
    }

    /// Adds in quotes to the answer of a case what a value prints.
    pub fn printed<V: Display>(&mut self, alloc: Global, value: &V) {
        match format!(in alloc; "{value}") {
            Ok(printed) => self.text(printed.as_bytes()),
            Err(error) => self.note(Err(error)),
        }
    }

    /// All that the answer of a case says. It fails only if there was no memory for a part of it.
    pub fn whole(&self) -> Result<&str, Trouble> {
        match self.refused {
            None => Ok(self.said.as_str()),
            Some(refused) => Err(Trouble::Memory(refused)),
        }
    }

    /// Whether another answer of a case says what this one says. It fails only if there was no memory for a
    /// part of one.
    pub fn is_same(&self, other: &Answer) -> Result<bool, Trouble> {
        Ok(self.whole()? == other.whole()?)
    }

    /// Notes in the answer of a case that there was no memory for a part, if there was none.
    fn note(&mut self, said: Result<(), AllocError>) {
        if let Err(error) = said {
            self.refused = Some(OutOfMemory::from(error));
        }
    }

    /// The text of a case's answer up to here, with a blank after it if it isn't empty.
    fn begun(&mut self) -> &mut String {
        if !self.said.is_empty() {
            let said = self.said.push(' ');
            self.note(said);
        }
        &mut self.said
    }

    /// Writes these bytes in quotes to the answer of a case.
    fn quote(&mut self, bytes: &[u8]) -> Result<(), AllocError> {
        self.begun().push('"')?;
        for byte in bytes {
            self.byte(*byte)?;
        }
        self.said.push('"')
    }

    /// Writes one byte in the quotes of a case's answer: as it is, or as an escape.
    fn byte(&mut self, byte: u8) -> Result<(), AllocError> {
        match byte {
            b'"' => self.said.push_str("\\\""),
            b'\\' => self.said.push_str("\\\\"),
            b'\r' => self.said.push_str("\\r"),
            b'\n' => self.said.push_str("\\n"),
            b'\t' => self.said.push_str("\\t"),
            b' '..=b'~' => self.said.push(byte as char),
            other => write!(self.said, "\\x{other:02x}"),
        }
    }
}
