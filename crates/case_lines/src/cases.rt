//! Files of cases, taken line by line: each case is called, judged and counted.
use crate::answer::{Answer, Trouble};
use crate::bench::{Bench, Ran};
use crate::line::Line;
use std::alloc::{AllocError, Global};

/// What begins a line of a case that continues the one before it.
const INDENT: &str = "    ";

/// The cases of some files, as far as their lines were taken, and the bench that their calls go to.
#[derive(Drop)]
pub struct Cases<B: Bench> {
    alloc: Global,
    bench: B,
    open: Open,
    /// The name of the file.
    file: String,
    /// The number of its last line that was taken.
    line: u64,
    count: u64,
    wrong: u64,
}

/// What the next line of a file of cases may continue.
#[derive(Drop)]
enum Open {
    Nothing,
    /// A case, or a line that sets something up; indented lines continue it.
    Call(Call),
    /// A case, or a line that sets something up, with a block of which some lines were taken.
    Block(Call),
    Script(Script),
}

/// A case, or a line that sets something up, as far as its lines were taken.
#[derive(Drop)]
struct Call {
    /// The number of its first line.
    line: u64,
    words: String,
    /// The lines of its block, if it has one.
    block: Option<String>,
}

/// A case that is a whole script, as far as its lines were taken.
#[derive(Drop)]
struct Script {
    words: String,
    input: String,
    /// What must be printed, once that begins.
    printed: Option<String>,
}

impl<B: Bench> Cases<B> {
    /// The cases of files of which no line was taken yet. The calls of cases go to this bench.
    pub fn new(alloc: Global, bench: B) -> Cases<B> {
        Cases {
            alloc,
            bench,
            open: Open::Nothing,
            file: String::new(alloc),
            line: 0,
            count: 0,
            wrong: 0,
        }
    }

    /// How many cases were taken from the files.
    pub fn count(&self) -> u64 {
        self.count
    }

    /// How many cases of the files differed, with the lines that are no case.
    pub fn wrong(&self) -> u64 {
        self.wrong
    }

    /// Begins a file of cases: what the lines of another file set up is dropped.
    pub fn begin_file(&mut self, name: &str) -> Result<(), AllocError> {
        self.bench.clear()?;
        self.file = String::from_str(self.alloc, name)?;
        self.line = 0;
        Ok(())
    }

    /// Ends a file of cases, and says what is wrong with its last case.
    pub fn end_file(&mut self) -> Result<Option<String>, AllocError> {
        match std::mem::replace(&mut self.open, Open::Nothing) {
            Open::Nothing => Ok(None),
            Open::Call(call) => self.settle(call),
            Open::Block(_) | Open::Script(_) => self.no_case(self.line),
        }
    }

    /// Takes the next line of a file of cases, and says what is wrong with the case that it ends.
    pub fn take(&mut self, text: &str) -> Result<Option<String>, AllocError> {
        self.line = self.line.saturating_add(1);
        match std::mem::replace(&mut self.open, Open::Nothing) {
            Open::Nothing => {
                self.begin(text)?;
                Ok(None)
            }
            Open::Call(call) if text.starts_with(INDENT) => self.take_more(call, text),
            Open::Call(call) => {
                self.begin(text)?;
                self.settle(call)
            }
            Open::Block(call) => self.take_block(call, text),
            Open::Script(script) => self.take_script(script, text),
        }
    }

    /// Begins with a line of a file a case, something to set up, or a script. An empty line and a comment
    /// begin nothing.
    fn begin(&mut self, text: &str) -> Result<(), AllocError> {
        if text.is_empty() || text.starts_with('#') {
            return Ok(());
        }
        if let Some(words) = text.strip_prefix("script ") {
            self.open = Open::Script(Script::new(self.alloc, words)?);
            return Ok(());
        }
        let (words, has_block) = match text.strip_suffix(" lines") {
            Some(words) => (words, true),
            None => (text, false),
        };
        let mut call = Call {
            line: self.line,
            words: String::from_str(self.alloc, words)?,
            block: None,
        };
        if has_block {
            call.block = Some(String::new(self.alloc));
            self.open = Open::Block(call);
        } else {
            self.open = Open::Call(call);
        }
        Ok(())
    }

    /// Adds an indented line to the case that it continues.
    fn take_more(&mut self, mut call: Call, text: &str) -> Result<Option<String>, AllocError> {
        call.words.push(' ')?;
        call.words.push_str(text.trim_start_matches(' '))?;
        self.open = Open::Call(call);
        Ok(None)
    }

    /// Takes a line of a case's block, or the end of the block. The end may say what the call must give.
    fn take_block(&mut self, mut call: Call, text: &str) -> Result<Option<String>, AllocError> {
        if text == "end" || text.starts_with("end =>") {
            if let Some(wanted) = text.strip_prefix("end") {
                call.words.push_str(wanted)?;
            }
            self.open = Open::Call(call);
            return Ok(None);
        }
        if let Some(block) = &mut call.block {
            block.push_str(text)?;
            block.push('\n')?;
        }
        self.open = Open::Block(call);
        Ok(None)
    }

    /// Settles a case once its lines were all taken: sets up what they say, or makes its call and judges it.
    fn settle(&mut self, call: Call) -> Result<Option<String>, AllocError> {
        let line = call.line;
        match self.answer(call) {
            Ok(wrong) => Ok(wrong),
            Err(Trouble::Memory(refused)) => Err(refused.into()),
            Err(Trouble::NoCase) => self.no_case(line),
        }
    }

    /// Reads the lines of a case, and sets up what they say, or makes its call and judges the answer.
    fn answer(&mut self, call: Call) -> Result<Option<String>, Trouble> {
        let mut line = Line::read(self.alloc, call.words.as_str())?;
        if let Some(block) = &call.block {
            line.given
                .push(Vec::from_slice(self.alloc, block.as_bytes())?)?;
        }
        let given = line.given.as_slice();
        let Some(wanted) = &line.wanted else {
            self.bench.set_up(line.call.as_str(), given)?;
            return Ok(None);
        };
        let answer = self.bench.answer(line.call.as_str(), given)?;
        self.judge(call.line, answer.whole()?, wanted.as_str())
    }

    /// Takes a line of a case that is a script: a line of its input, a line of what must be printed, or its
    /// end.
    fn take_script(
        &mut self,
        mut script: Script,
        text: &str,
    ) -> Result<Option<String>, AllocError> {
        let is_printed = script.printed.is_some();
        if is_printed && text.starts_with("status ") {
            return self.run(&script, text);
        }
        if !is_printed && text == "prints" {
            script.printed = Some(String::new(self.alloc));
        } else {
            script.add(text)?;
        }
        self.open = Open::Script(script);
        Ok(None)
    }

    /// Runs a case that is a script, whose last line is this one: `status N`, and `says TEXT` if the program
    /// says something on standard error.
    fn run(&mut self, script: &Script, last: &str) -> Result<Option<String>, AllocError> {
        let judged = match self
            .bench
            .run(script.words.as_str(), script.input.as_bytes())
        {
            Ok(ran) => self.judge_run(script, &ran, last),
            Err(trouble) => Err(trouble),
        };
        match judged {
            Ok(wrong) => Ok(wrong),
            Err(Trouble::Memory(refused)) => Err(refused.into()),
            Err(Trouble::NoCase) => self.no_case(self.line),
        }
    }

    /// Judges a case that is a script by its run: what the program printed, its status, and what it said.
    fn judge_run(
        &mut self,
        script: &Script,
        ran: &Ran,
        last: &str,
    ) -> Result<Option<String>, Trouble> {
        let given = answer_of_run(self.alloc, ran);
        let mut wanted = Answer::new(self.alloc);
        if let Some(printed) = &script.printed {
            wanted.text(printed.as_bytes());
        }
        wanted.word(last);
        self.judge(self.line, given.whole()?, wanted.whole()?)
    }

    /// Counts a case, and says where its answer differs from what the line wants.
    fn judge(&mut self, line: u64, given: &str, wanted: &str) -> Result<Option<String>, Trouble> {
        self.count = self.count.saturating_add(1);
        if given == wanted {
            return Ok(None);
        }
        self.wrong = self.wrong.saturating_add(1);
        let file = self.file.as_str();
        Ok(Some(format!(in self.alloc; "{file}:{line}: {given}, not {wanted}")?))
    }

    /// Counts a line of a file that is no case, and says which line it is.
    fn no_case(&mut self, line: u64) -> Result<Option<String>, AllocError> {
        self.wrong = self.wrong.saturating_add(1);
        let file = self.file.as_str();
        Ok(Some(format!(in self.alloc; "{file}:{line}: no case")?))
    }
}

impl Script {
    /// A case that is a script, of which the first line was taken. The words are those of the program's
    /// command line.
    fn new(alloc: Global, words: &str) -> Result<Script, AllocError> {
        Ok(Script {
            words: String::from_str(alloc, words)?,
            input: String::new(alloc),
            printed: None,
        })
    }

    /// Adds a line to what the script of a case must print, or to its input before that begins.
    fn add(&mut self, text: &str) -> Result<(), AllocError> {
        let lines = match &mut self.printed {
            Some(printed) => printed,
            None => &mut self.input,
        };
        lines.push_str(text)?;
        lines.push('\n')
    }
}

/// A run of the program, in the words of a case: what it printed, its status, and what it said, if it said
/// something.
fn answer_of_run(alloc: Global, ran: &Ran) -> Answer {
    let mut answer = Answer::new(alloc);
    answer.text(ran.printed.as_slice());
    answer.word("status");
    answer.number(u64::from(ran.status));
    if !ran.said.is_empty() {
        answer.word("says");
        answer.text(ran.said.as_slice());
    }
    answer
}
