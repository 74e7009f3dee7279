//! A word matched against a pattern of `:M` or `:N`.
ghost use Rattle.std.specs.Prelude.{◌≡◌, ◌↔◌, ◌≤◌, IsTrue, false, None};
ghost use Rattle.std.specs.Str.{chars};
ghost use Rattle.mk_glob.specs.Signs.{signs_of, is_bare};
ghost use Rattle.mk_glob.specs.Items.{bracket, items_of};
ghost use Rattle.mk_glob.specs.Matcher.{Fits, fits};
ghost use Rattle.mk_glob.specs.Steps.{widths, Finds, TellsOne};

use crate::brackets::bracket_allows;
use crate::pattern_signs::{PatternSign, first_char, first_sign};

/// What is left of a pattern and of a word.
#[derive(Clone, Copy)]
struct Rest<'t> {
    pattern: &'t str,
    word: &'t str,
}

/// What the first item of a pattern does with a word.
enum Step<'t> {
    /// Nothing is left of the pattern or of the word.
    Over,
    /// The item is a run, here of no character; this is left after it.
    Run(Rest<'t>),
    /// The item takes a character; this is left after both.
    One(Rest<'t>),
    /// The word doesn't fit.
    Refused,
}

impl<'t> Rest<'t> {
    ghost use Rattle.mk_glob.specs.Steps.{UnclosedWithin, Learns, IsStep, GoesFurther};

    /// What the first item of a pattern does with a word; `unclosed` is as in `item_allows`.
    fn step(self, unclosed: &mut usize) -> Step<'t>
        requires known { UnclosedWithin (signs_of self.pattern.now) unclosed.old }
        ensures step { IsStep self.entry result }
        ensures learns { Learns (signs_of self.entry.pattern.now) unclosed.old unclosed.new }
    {
        let Some((sign, pattern)) = first_sign(self.pattern) else {
            return match first_char(self.word) {
                None => Step::Over,
                Some(_) => Step::Refused,
            };
        };
        if sign.is_bare('*') {
            let word = self.word;
            return Step::Run(Rest { pattern, word });
        }
        let Some((c, word)) = first_char(self.word) else {
            return Step::Refused;
        };
        let (allowed, pattern) = item_allows(sign, pattern, c, unclosed);
        if allowed {
            Step::One(Rest { pattern, word })
        } else {
            Step::Refused
        }
    }

    /// What is left of the pattern and of the word, with one character less of the word; `None` if the word
    /// is empty.
    fn one_further(self) -> Option<Rest<'t>>
        ensures { GoesFurther self.entry result }
    {
        let pattern = self.pattern;
        match first_char(self.word) {
            Some((_, word)) => Some(Rest { pattern, word }),
            None => None,
        }
    }
}

/// Whether an item of a pattern allows `c`, and what follows the item. It begins with `sign`, goes on in
/// `behind`, and isn't `*`.
///
/// `unclosed` says from how many bytes before the pattern's end on no bracket is closed any more. If no
/// more bytes than that follow a `[`, it is itself, and no `]` is looked for.
fn item_allows<'t>(
    sign: PatternSign,
    behind: &'t str,
    c: char,
    unclosed: &mut usize,
) -> (bool, &'t str)
    requires item { is_bare 42 sign ≡ false }
    requires known { widths (signs_of behind.now) ≤ unclosed.old
        → bracket (signs_of behind.now) ≡ None }
    ensures tells { TellsOne sign (signs_of behind.now) c result.0 (signs_of result.1.now) }
    ensures learns { Finds (signs_of behind.now) unclosed.old unclosed.new }
{
    if sign.is_bare('?') {
        return (true, behind);
    }
    if sign.is_bare('[') && *unclosed < behind.len() {
        if let Some(read) = bracket_allows(behind, c) {
            return read;
        }
        *unclosed = behind.len();
    }
    (sign.character() == c, behind)
}

/// Whether `word` fits `pattern`, which is one of `:M` or `:N`: whether it can be cut into as many parts as
/// the pattern has items, each allowed by its item.
///
/// The items, from the left: `*` allows any run of characters, also none. `?` allows any one character.
/// A bracket allows one of the characters in it, given singly or as a range with a `-` between its
/// ends. With a `!` directly after the `[`, it allows one character that isn't among them. A backslash
/// makes the character after it plain, also in a bracket. Every other character allows itself.
///
/// A `]` directly after `[` or `[!` is a member. A `-` that is the first or the last one inside is
/// plain. A range whose ends are reversed has no members. A `[` that isn't closed is itself, and so is
/// a backslash with nothing after it.
///
/// Characters are Unicode scalar values. It allocates no memory, and the time is at most in proportion
/// to the product of the two lengths.
pub fn glob(pattern: &str, word: &str) -> bool
    ensures value { result ≡ fits pattern.now word.now }
    ensures cut { IsTrue result ↔ Fits (items_of pattern.now) (chars word.now) }
{
    let mut rest = Rest { pattern, word };
    // what is left after the last run, if that takes as few characters as it still may
    let mut back: Option<Rest<'_>> = None;
    let mut unclosed = 0;
    loop {
        match rest.step(&mut unclosed) {
            Step::Over => return true,
            Step::Run(behind) => {
                rest = behind;
                back = Some(behind);
            }
            Step::One(behind) => rest = behind,
            Step::Refused => {
                back = back.and_then(Rest::one_further);
                let Some(further) = back else { return false };
                rest = further;
            }
        }
    }
}
