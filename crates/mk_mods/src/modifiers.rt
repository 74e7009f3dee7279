//! What a modifier of a reference is, as it is read: `:M`, `:N`, `:S`, one of a letter, or `old=new`.
ghost use Rattle.std.specs.Prelude.{◌↔◌, IsTrue};
ghost use Rattle.std.specs.List.{flat_map};
ghost use Rattle.mk_mods.specs.Actions.{action_of, symbols_of, AllPlain, IsExpanded};

/// A modifier of a reference: what it does to the words of a value.
#[derive(Debug, Drop)]
pub enum Modifier {
    /// `:M`: the words that match this pattern.
    Match(String),
    /// `:N`: the words that don't match this pattern.
    Exclude(String),
    /// `:S`: each word with one text in place of another.
    Substitute(Substitution),
    /// `:R`, `:E`, `:H`, `:T`, `:L` and `:U`: something made of each word.
    Change(WordMap),
    /// `old=new`: each word that ends in the old text with the new one there.
    Suffix {
        /// The text that words end in.
        old: String,
        /// The text that is put there.
        new: String,
    },
}

impl Modifier {
    /// Whether a modifier may be applied: no part of a substitution in it is a reference. A pattern is a
    /// text, and so are the two of `old=new`. When these are read they may hold references, and they don't
    /// show whether they were expanded.
    pub fn is_expanded(&self) -> bool
        ensures { IsTrue result ↔ IsExpanded (action_of self.now) }
    {
        match self {
            Modifier::Match(_) | Modifier::Exclude(_) => true,
            Modifier::Change(_) | Modifier::Suffix { .. } => true,
            Modifier::Substitute(substitution) => {
                are_plain(&substitution.old) && are_plain(&substitution.new)
            }
        }
    }
}

/// What a modifier of one letter makes of a word.
#[derive(Debug, Clone, Copy, PartialEq, Eq)]
pub enum WordMap {
    /// `:R`: what comes before the last dot; without a dot, the word.
    Root,
    /// `:E`: what follows the last dot; without a dot, nothing.
    Extension,
    /// `:H`: what comes before the last slash, or a slash if that is nothing; without a slash, a dot.
    Head,
    /// `:T`: what follows the last slash; without a slash, the word.
    Tail,
    /// `:L`: the word with its ASCII letters lowered.
    Lower,
    /// `:U`: the word with its ASCII letters raised.
    Upper,
}

/// A substitution, `:S`: what is looked for, what is put in its place, and where.
#[derive(Debug, Drop)]
pub struct Substitution {
    /// The text that is looked for, in parts from left to right.
    pub old: Vec<Part>,
    /// The text that is put in its place, in parts from left to right.
    pub new: Vec<Part>,
    /// Whether it acts only at the beginning of a word (`^`).
    pub starts: bool,
    /// Whether it acts only at the end of a word (`$`).
    pub ends: bool,
    /// Whether it acts at each place of the old text in a word, and not only at the first (`g`).
    pub every: bool,
    /// Whether it acts only in the first word that matches (`1`).
    pub once: bool,
}

/// A part of a text of `:S`.
#[derive(Debug, Drop)]
pub enum Part {
    /// Text that means itself.
    Text(String),
    /// The old text as a whole (`&` in the new one).
    Whole,
    /// A reference that isn't expanded yet: its source.
    Reference(String),
}

/// Whether no part of a text of a substitution `:S` is a reference.
fn are_plain(parts: &[Part]) -> bool
    ensures { IsTrue result ↔ AllPlain (flat_map symbols_of parts.now) }
{
    for part in parts {
        if let Part::Reference(_) = part {
            return false;
        }
    }
    true
}
