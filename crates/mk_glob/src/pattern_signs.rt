//! The signs of a pattern: its characters, with its backslashes read.
ghost use Rattle.std.specs.Prelude.{◌≡◌};
ghost use Rattle.mk_glob.specs.Signs.{character, is_bare};
ghost use Rattle.mk_glob.specs.FirstSigns.{ReadsChar, ReadsSign};

/// A character of a pattern.
#[derive(Clone, Copy)]
pub(crate) enum PatternSign {
    /// As it is written.
    Bare(char),
    /// Made plain by a backslash before it.
    Plain(char),
}

impl PatternSign {
    /// The character that a sign of a pattern is.
    pub(crate) fn character(self) -> char
        ensures { result ≡ character self }
    {
        match self {
            PatternSign::Bare(c) | PatternSign::Plain(c) => c,
        }
    }

    /// Whether a sign of a pattern is this character with no backslash before it.
    pub(crate) fn is_bare(self, c: char) -> bool
        ensures { result ≡ is_bare c self }
    {
        match self {
            PatternSign::Bare(bare) => bare == c,
            PatternSign::Plain(_) => false,
        }
    }
}

/// The first character of a pattern or of a word, and what follows it; `None` if the text is empty.
pub(crate) fn first_char(text: &str) -> Option<(char, &str)>
    ensures { ReadsChar text.now result }
{
    let mut rest = text.chars();
    match rest.next() {
        Some(first) => Some((first, rest.as_str())),
        None => None,
    }
}

/// The first sign of a pattern (a character, or one that a backslash makes plain), and what follows it;
/// `None` if the pattern is empty. A backslash with nothing after it is a sign of its own.
pub(crate) fn first_sign(pattern: &str) -> Option<(PatternSign, &str)>
    ensures { ReadsSign pattern.now result }
{
    let (first, behind) = first_char(pattern)?;
    if first == '\\' {
        if let Some((plain, further)) = first_char(behind) {
            return Some((PatternSign::Plain(plain), further));
        }
    }
    Some((PatternSign::Bare(first), behind))
}
