//! What is joined so far of a text in which references are replaced by the words of loops.
ghost use Rattle.std.specs.Prelude.{◌≡◌, string_bytes, IfOk};
ghost use Rattle.mk_base.specs.Meter.{Meter};
ghost use Rattle.mk_base.specs.Stops.{GivesPurely};
ghost use Rattle.mk_loop.specs.BodyLine.{nothing, double_dollars, as_written, finished};
ghost use Rattle.mk_loop.specs.Joinings.{so_far, JoinsWord};

use mk_base::{FaultKind, PureStop};
use mk_text::{TEXT_LIMIT, TextFault, add_text};
use std::alloc::{AllocError, Global};

/// What is joined of a text so far.
#[derive(Debug, Drop)]
pub(crate) struct Joined {
    text: String,
    /// Whether a word was put in.
    replaced: bool,
}

impl Joined {
    /// What is joined of a text into which the words of loops are put, before its beginning: nothing. It
    /// takes no memory.
    pub(crate) fn new(alloc: Global) -> Joined
        ensures { so_far result ≡ nothing }
    {
        Joined {
            text: String::new(alloc),
            replaced: false,
        }
    }

    /// What is joined so far, and after it more of the line of a loop's body, as it is written.
    pub(crate) fn as_written(self, text: &str) -> Result<Joined, AllocError>
        ensures { IfOk result (λ joined. so_far joined ≡ as_written (so_far self) text.now) }
    {
        let Joined {
            text: joined,
            replaced,
        } = self;
        let mut joined = joined;
        joined.push_str(text)?;
        Ok(Joined {
            text: joined,
            replaced,
        })
    }

    /// What is joined so far, and after it the word of a loop, each dollar of it doubled. If the text is then
    /// too long, that is the fault `Length`.
    pub(crate) fn with_word(self, alloc: Global, word: &str) -> Result<Joined, PureStop<FaultKind>>
        ensures gives { JoinsWord result self word.now }
    {
        let word = double_dollars(alloc, word)?;
        let mut text = self.text;
        match add_text(&mut text, word.as_str()) {
            Ok(()) => Ok(Joined {
                text,
                replaced: true,
            }),
            Err(TextFault::Length) => Err(PureStop::Fault(FaultKind::Length)),
            Err(TextFault::Memory(refused)) => Err(PureStop::Memory(refused)),
        }
    }

    /// The joined text at its end. If the word of a loop was put in and the text is too long, that is the
    /// fault `Length`.
    pub(crate) fn finished(self) -> Result<String, PureStop<FaultKind>>
        ensures gives { (m : Meter) → GivesPurely string_bytes result m (finished (so_far self) m) }
    {
        if self.replaced && self.text.len() > TEXT_LIMIT {
            return Err(PureStop::Fault(FaultKind::Length));
        }
        Ok(self.text)
    }
}

/// The word of a loop with each dollar doubled, so that it means itself in the line.
fn double_dollars(alloc: Global, text: &str) -> Result<String, AllocError>
    ensures { IfOk result (λ made. string_bytes made ≡ double_dollars text.now) }
{
    let bytes = text.as_bytes();
    let mut made = String::new(alloc);
    let mut copied = 0;
    for at in 0..bytes.len() {
        if bytes[at] == b'$' {
            made.push_str(&text[copied..at + 1])?;
            // What follows begins with this dollar, once more.
            copied = at;
        }
    }
    made.push_str(&text[copied..])?;
    Ok(made)
}
