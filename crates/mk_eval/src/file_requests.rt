//! Requests of `.include` and `.sinclude` lines for files.
ghost use Rattle.std.specs.Prelude.{◌≡◌, string_bytes};

use std::marker::Model;

/// A file that a line asks for, by a text that names it. Clauses see the text's bytes, and whether the
/// file may be missing.
#[derive(Debug, Drop)]
pub struct Request {
    text: String,
    optional: bool,
}

impl Model for Request {
    ghost use Rattle.std.specs.Prelude.{string_bytes};
    ghost use Rattle.mk_eval.specs.Lines.{Request as FileRequest};

    ghost Value = { FileRequest };

    ghost view = { λ r. record { text = string_bytes r.text; optional = r.optional } };
}

impl Request {
    /// The request of a line for the file that this text names. If it is optional, the file may be missing.
    pub(crate) fn new(text: String, optional: bool) -> Request
        ensures { result ≡ record { text = string_bytes text; optional = optional } }
    {
        Request { text, optional }
    }

    /// The text of a line's request for a file: what follows `.include` or `.sinclude`, expanded.
    pub fn text(&self) -> &str
        ensures { result.now ≡ self.now.text }
    {
        self.text.as_str()
    }

    /// Whether the file that a line requests may be missing, as under `.sinclude`.
    pub fn optional(&self) -> bool
        ensures { result ≡ self.now.optional }
    {
        self.optional
    }
}
