//! Logical lines of a makefile: a source line that ends in a backslash is joined to the next.
ghost use Rattle.std.specs.Prelude.{◌≡◌, ◌++◌, IfOk, string_bytes};
ghost use Rattle.mk_text.specs.Blanks.{trim_blanks};
ghost use Rattle.mk_text.specs.Lines.{goes_on, unmarked, continued, line_at, logical_lines, without_comment};

use crate::blanks::{skip_blanks, trim_blanks};
use crate::comments::without_comment;
use std::alloc::{AllocError, Global};
use std::marker::Model;

/// A logical line of a makefile: one or more source lines, joined and without their comment. A
/// contract sees it as a `LogicalLine`.
#[derive(Debug, Drop)]
pub struct Logical {
    text: String,
    line: u64,
    command: bool,
}

impl Model for Logical {
    ghost use Rattle.std.specs.Prelude.{string_bytes};
    ghost use Rattle.mk_text.specs.Lines.{LogicalLine};

    ghost Value = { LogicalLine };

    ghost view = { λ l. record { text = string_bytes l.text; line = l.line; command = l.command } };
}

impl Logical {
    /// The text of a logical line of a makefile. The text of a command line is kept as it is, with the
    /// leading tab. Any other line is without its comment and without blanks at both its ends.
    pub fn text(&self) -> &str
        ensures { result.now ≡ self.now.text }
    {
        self.text.as_str()
    }

    /// The number of the first source line of a logical line of a makefile, counted from 1.
    pub fn line(&self) -> u64
        ensures { result ≡ self.now.line }
    {
        self.line
    }

    /// Whether a logical line of a makefile is a command line: one that begins with a tab.
    pub fn is_command(&self) -> bool
        ensures { result ≡ self.now.command }
    {
        self.command
    }
}

/// The source lines of one logical line that are read so far, joined.
#[derive(Drop)]
struct Run {
    joined: String,
    line: u64,
}

impl Run {
    /// The source lines of one logical line, begun: `piece` is the first of them, and `line` its number.
    fn begin(alloc: Global, piece: &str, line: u64) -> Result<Run, AllocError>
        ensures text { IfOk result (λ run. string_bytes run.joined ≡ unmarked piece.now) }
        ensures line { IfOk result (λ run. run.line ≡ line) }
    {
        Ok(Run {
            joined: String::from_str(alloc, unmarked(piece))?,
            line,
        })
    }

    /// The source lines of one logical line, with one more joined to them: a space, and what follows its
    /// leading blanks.
    fn with(mut self, piece: &str) -> Result<Run, AllocError>
        ensures text { IfOk result (λ run.
            string_bytes run.joined ≡ string_bytes self.joined ++ continued piece.now) }
        ensures line { IfOk result (λ run. run.line ≡ self.line) }
    {
        self.joined.push(' ')?;
        self.joined.push_str(unmarked(skip_blanks(piece)))?;
        Ok(self)
    }

    /// The logical line of a makefile that these joined source lines make: a command line, or a line without
    /// its comment.
    fn finish(self, alloc: Global) -> Result<Logical, AllocError>
        ensures { IfOk result (λ logical. logical ≡ line_at self.line (string_bytes self.joined)) }
    {
        let Run { joined, line } = self;
        if joined.as_str().starts_with('\t') {
            return Ok(Logical {
                text: joined,
                line,
                command: true,
            });
        }
        Ok(Logical {
            text: plain_text(alloc, joined)?,
            line,
            command: false,
        })
    }
}

/// The text of a logical line that is no command line: the joined source lines without their comment and
/// without blanks at the ends. If there is neither, it is not copied.
fn plain_text(alloc: Global, joined: String) -> Result<String, AllocError>
    ensures { IfOk result (λ text. string_bytes text
        ≡ trim_blanks (without_comment (string_bytes joined))) }
{
    if joined.as_str().contains('#') {
        let plain = without_comment(alloc, joined.as_str())?;
        return trimmed(alloc, plain);
    }
    trimmed(alloc, joined)
}

/// The text of a logical line without the blanks at its ends. If it has none there, it is not copied.
fn trimmed(alloc: Global, text: String) -> Result<String, AllocError>
    ensures { IfOk result (λ kept. string_bytes kept ≡ trim_blanks (string_bytes text)) }
{
    let whole = text.as_str();
    let kept = trim_blanks(whole);
    if kept.len() == whole.len() {
        return Ok(text);
    }
    String::from_str(alloc, kept)
}

/// Whether a source line of a makefile goes on in the next: whether it ends in a backslash.
fn goes_on(piece: &str) -> bool
    ensures { result ≡ goes_on piece.now }
{
    piece.ends_with('\\')
}

/// A source line of a makefile without the backslash at its end.
fn unmarked(piece: &str) -> &str
    ensures { result.now ≡ unmarked piece.now }
{
    match piece.strip_suffix('\\') {
        Some(kept) => kept,
        None => piece,
    }
}

/// The logical lines of a makefile, blank ones too.
///
/// Source lines end only at line feeds. After a last line feed there is one more source line, which is
/// empty, so there is always a logical line. A carriage return is an ordinary character.
///
/// A source line whose last character is a backslash is joined to the next. The continuation goes from
/// that backslash up to the first byte of the next source line that isn't a blank (space or tab). A
/// single space replaces it; what the source line has before its backslash stays, blanks too. A
/// backslash that is the last character of the whole text is left out.
///
/// Then each joined line is read. If it begins with a tab, it is a command line, and nothing more is
/// done to it. Any other line ends before its first `#` that has no backslash directly before it. Each
/// `\#` before that becomes a plain `#`, and the blanks at both ends of the line are left out.
///
/// Each line has the number of its first source line, counted from 1. The time is linear in the length
/// of `text`.
///
/// # Errors
///
/// `AllocError` if memory for the lines runs out.
pub fn logical_lines(alloc: Global, text: &str) -> Result<Vec<Logical>, AllocError>
    ensures { IfOk result (λ lines. lines.items ≡ logical_lines text.now) }
{
    let mut lines = Vec::new(alloc);
    let mut open: Option<Run> = None;
    let mut number: u64 = 0;
    for piece in text.split('\n') {
        number += 1;
        let run = match open {
            Some(run) => run.with(piece)?,
            None => Run::begin(alloc, piece, number)?,
        };
        if goes_on(piece) {
            open = Some(run);
        } else {
            lines.push(run.finish(alloc)?)?;
            open = None;
        }
    }
    if let Some(run) = open {
        lines.push(run.finish(alloc)?)?;
    }
    Ok(lines)
}
