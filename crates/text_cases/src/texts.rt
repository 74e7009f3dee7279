//! Cases of texts: lines, words, blanks, references, patterns, modifiers, kinds of lines.
use case_lines::{Answer, Trouble, as_text, one_text};
use mk_ast::{LineKind, is_word, line_kind, plain_kind};
use mk_glob::glob;
use mk_mods::{Modifier, Mods, ModsFault, Part, Substitution, apply, substitute};
use mk_ref::{Piece, PiecesFault, outside, pieces};
use mk_text::{Profile, TextFault, is_blank, logical_lines, skip_blanks, trim_blanks, words};
use std::alloc::{AllocError, Global};
use std::fmt::Write;

/// The call `lines TEXT` of a case of texts: each logical line as its number with a colon and its text. A
/// command has a bar in place of the colon.
pub fn lines_of(alloc: Global, given: &[Vec<u8>]) -> Result<Answer, Trouble> {
    let mut answer = Answer::new(alloc);
    for logical in &logical_lines(alloc, one_text(given)?)? {
        let line = logical.line();
        let mark = if logical.is_command() { '|' } else { ':' };
        answer.word(format!(in alloc; "{line}{mark}")?.as_str());
        answer.text(logical.text().as_bytes());
    }
    Ok(answer)
}

/// The call `words TEXT` of a case of texts: the words of the text.
pub fn words_of(alloc: Global, given: &[Vec<u8>]) -> Result<Answer, Trouble> {
    let text = one_text(given)?;
    let mut answer = Answer::new(alloc);
    for span in &words(alloc, text)? {
        answer.text(span.of(text).as_bytes());
    }
    Ok(answer)
}

/// The calls `trim TEXT`, `skip TEXT` of a case of texts: the text without blanks at both ends, or in front.
pub fn without_blanks(alloc: Global, given: &[Vec<u8>], both: bool) -> Result<Answer, Trouble> {
    let text = one_text(given)?;
    let rest = if both {
        trim_blanks(text)
    } else {
        skip_blanks(text)
    };
    Ok(Answer::of_text(alloc, rest))
}

/// The call `blanks` of a case of texts: the bytes that are blanks.
pub fn blanks(alloc: Global) -> Answer {
    let mut answer = Answer::new(alloc);
    for byte in 0..=255u8 {
        if is_blank(byte) {
            answer.number(u64::from(byte));
        }
    }
    answer
}

/// The call `pieces TEXT` of a case of texts: each literal as it is, a pair after `pair`, a reference after
/// `reference` with its name and modifiers. If a reference doesn't end, it is `unclosed at` with the byte
/// where that reference begins.
pub fn pieces_of(alloc: Global, given: &[Vec<u8>]) -> Result<Answer, Trouble> {
    let text = one_text(given)?;
    match pieces(alloc, text) {
        Ok(found) => Ok(pieces_answer(alloc, text, found.as_slice())),
        Err(PiecesFault::Unclosed { at }) => {
            let mut answer = Answer::of_word(alloc, "unclosed at");
            answer.number(at as u64);
            Ok(answer)
        }
        Err(PiecesFault::Memory(refused)) => Err(Trouble::Memory(refused)),
    }
}

/// Shows the pieces of a text in a case of texts: literals, pairs and references.
fn pieces_answer(alloc: Global, text: &str, pieces: &[Piece]) -> Answer {
    let mut answer = Answer::new(alloc);
    for piece in pieces {
        add_piece(&mut answer, text, *piece);
    }
    answer
}

/// Adds a piece of a text to the answer of a case of texts: a literal as it is, a pair and a reference after
/// their words.
fn add_piece(answer: &mut Answer, text: &str, piece: Piece) {
    match piece {
        Piece::Literal(span) => add_place(answer, text, span.start, span.end),
        Piece::EscapedDollar(span) => {
            answer.word("pair");
            add_place(answer, text, span.start, span.end);
        }
        Piece::Reference(reference) => {
            answer.word("reference");
            add_place(answer, text, reference.whole.start, reference.whole.end);
            answer.word("name");
            add_place(answer, text, reference.name.start, reference.name.end);
            if let Some(modifiers) = reference.modifiers {
                answer.word("modifiers");
                add_place(answer, text, modifiers.start, modifiers.end);
            }
        }
    }
}

/// Adds to the answer of a case of texts what is at a place of the text, or `no-place`.
fn add_place(answer: &mut Answer, text: &str, start: usize, end: usize) {
    match text.get(start..end) {
        Some(found) => answer.text(found.as_bytes()),
        None => answer.word("no-place"),
    }
}

/// The call `number of pieces TEXT` of a case of texts: how many literals, pairs and references the text has.
pub fn number_of_pieces(alloc: Global, given: &[Vec<u8>]) -> Result<Answer, Trouble> {
    let mut answer = Answer::new(alloc);
    if let Ok(found) = pieces(alloc, one_text(given)?) {
        answer.number(found.len() as u64);
    }
    Ok(answer)
}

/// The call `outside TEXT` of a case of texts: the text with dollars in place of its references.
pub fn outside_references(alloc: Global, given: &[Vec<u8>]) -> Result<Answer, Trouble> {
    let mut answer = Answer::new(alloc);
    answer.text(outside(alloc, one_text(given)?)?.as_slice());
    Ok(answer)
}

/// The call `glob PATTERN WORD` of a case of texts: `fits` or `no`, by whether the pattern fits the word.
pub fn fits(alloc: Global, given: &[Vec<u8>]) -> Result<Answer, Trouble> {
    let [pattern, word] = given else {
        return Err(Trouble::NoCase);
    };
    let holds = glob(as_text(pattern)?, as_text(word)?);
    Ok(Answer::of_choice(alloc, holds, "fits", "no"))
}

/// The call `modifiers MODIFIERS of VALUE` of a case of texts: what the modifiers make of the value in this
/// profile, one after another; or `BadMod`, `Length`, or `Reference` if one isn't expanded.
pub fn modified(alloc: Global, profile: Profile, given: &[Vec<u8>]) -> Result<Answer, Trouble> {
    let [text, value] = given else {
        return Err(Trouble::NoCase);
    };
    let value = as_text(value)?;
    match read_modifiers(alloc, as_text(text)?, profile)? {
        Some(mods) => applied(alloc, &mods, value),
        None => Ok(Answer::of_word(alloc, "BadMod")),
    }
}

/// What modifiers make of a value in a case of texts, one after another; or `Length`, or `Reference` if one
/// isn't expanded.
fn applied(alloc: Global, mods: &Mods, value: &str) -> Result<Answer, Trouble> {
    let mut made = String::from_str(alloc, value)?;
    for modifier in &mods.modifiers {
        if !modifier.is_expanded() {
            return Ok(Answer::of_word(alloc, "Reference"));
        }
        made = match apply(alloc, modifier, made.as_str()) {
            Ok(text) => text,
            Err(TextFault::Length) => return Ok(Answer::of_word(alloc, "Length")),
            Err(TextFault::Memory(refused)) => return Err(Trouble::Memory(refused)),
        };
    }
    Ok(Answer::of_text(alloc, made.as_str()))
}

/// The modifiers that a case of texts gives as a text, read in this profile. `None` if it is no modifiers.
fn read_modifiers(alloc: Global, text: &str, profile: Profile) -> Result<Option<Mods>, Trouble> {
    match Mods::read(alloc, text, profile) {
        Ok(mods) => Ok(Some(mods)),
        Err(ModsFault::BadMod) => Ok(None),
        Err(ModsFault::Memory(refused)) => Err(Trouble::Memory(refused)),
    }
}

/// The call `substitute MODIFIERS OLD NEW in VALUE` of a case of texts: what a `:S` makes of the value with
/// these texts as old and new.
pub fn substituted(alloc: Global, given: &[Vec<u8>]) -> Result<Answer, Trouble> {
    let [text, old, new, value] = given else {
        return Err(Trouble::NoCase);
    };
    let (old, new, value) = (as_text(old)?, as_text(new)?, as_text(value)?);
    let Some(mods) = read_modifiers(alloc, as_text(text)?, Profile::One)? else {
        return Ok(Answer::of_word(alloc, "BadMod"));
    };
    let mut answer = Answer::new(alloc);
    for modifier in &mods.modifiers {
        let Modifier::Substitute(substitution) = modifier else {
            return Err(Trouble::NoCase);
        };
        match substitute(alloc, substitution, old, new, value) {
            Ok(made) => answer.text(made.as_bytes()),
            Err(TextFault::Length) => answer.word("Length"),
            Err(TextFault::Memory(refused)) => return Err(Trouble::Memory(refused)),
        }
    }
    Ok(answer)
}

/// The call `modifiers as read MODIFIERS` of a case of texts: the modifiers one after another. `M` and `N`
/// have the pattern in single quotes, a `:S` has its old and new text, `old=new` has both texts in single
/// quotes, and the others have their names. In a `:S` texts are in single quotes, the old text is `&`, and
/// references are between `<` and `>`.
pub fn modifiers_as_read(
    alloc: Global,
    profile: Profile,
    given: &[Vec<u8>],
) -> Result<Answer, Trouble> {
    let Some(mods) = read_modifiers(alloc, one_text(given)?, profile)? else {
        return Ok(Answer::of_word(alloc, "BadMod"));
    };
    let mut answer = Answer::new(alloc);
    for modifier in &mods.modifiers {
        answer.word(shown_modifier(alloc, modifier)?.as_str());
    }
    Ok(answer)
}

/// Shows a modifier as it is read, in a case of texts.
fn shown_modifier(alloc: Global, modifier: &Modifier) -> Result<String, AllocError> {
    match modifier {
        Modifier::Match(pattern) => format!(in alloc; "M'{pattern}'"),
        Modifier::Exclude(pattern) => format!(in alloc; "N'{pattern}'"),
        Modifier::Change(map) => format!(in alloc; "{map:?}"),
        Modifier::Suffix { old, new } => format!(in alloc; "'{old}'='{new}'"),
        Modifier::Substitute(substitution) => shown_substitution(alloc, substitution),
    }
}

/// Shows a `:S` modifier as it is read, in a case of texts: its old and new text with its flags.
fn shown_substitution(alloc: Global, substitution: &Substitution) -> Result<String, AllocError> {
    let old = shown_parts(alloc, &substitution.old)?;
    let new = shown_parts(alloc, &substitution.new)?;
    let starts = if substitution.starts { "^" } else { "" };
    let ends = if substitution.ends { "$" } else { "" };
    let every = if substitution.every { "g" } else { "" };
    let once = if substitution.once { "1" } else { "" };
    format!(in alloc; "S{starts}{old}{ends}/{new}/{every}{once}")
}

/// Shows the old or new text of a `:S` modifier as it is read, in a case of texts: texts in single quotes,
/// `&`, and references between `<` and `>`.
fn shown_parts(alloc: Global, parts: &[Part]) -> Result<String, AllocError> {
    let mut out = String::new(alloc);
    for part in parts {
        match part {
            Part::Text(text) => write!(out, "'{text}'")?,
            Part::Whole => out.push('&')?,
            Part::Reference(source) => write!(out, "<{source}>")?,
        }
    }
    Ok(out)
}

/// The call `line TEXT` of a case of texts: the kind of the line; of a directive with what follows its word,
/// of an assignment with its name and value.
pub fn kind_of_line(alloc: Global, given: &[Vec<u8>]) -> Result<Answer, Trouble> {
    let kind = line_kind(alloc, one_text(given)?)?;
    Ok(kind_answer(alloc, kind))
}

/// The call `plain line TEXT` of a case of texts: the kind of a line that can be neither a command nor a
/// directive, shown as by `line`.
pub fn plain_kind_of_line(alloc: Global, given: &[Vec<u8>]) -> Result<Answer, Trouble> {
    let kind = plain_kind(alloc, one_text(given)?)?;
    Ok(kind_answer(alloc, kind))
}

/// Shows the kind of a line in a case of texts, with what follows a directive's word or with an assignment's
/// name and value.
fn kind_answer(alloc: Global, kind: LineKind<'_>) -> Answer {
    let mut answer = Answer::new(alloc);
    match kind {
        LineKind::Command => answer.word("command"),
        LineKind::Blank => answer.word("blank"),
        LineKind::Directive { word, rest } => {
            answer.kind(&word);
            answer.text(rest.as_bytes());
        }
        LineKind::Assignment {
            operator,
            name,
            value,
        } => {
            answer.kind(&operator);
            answer.text(name.as_bytes());
            answer.text(value.as_bytes());
        }
        LineKind::Dependency => answer.word("dependency"),
        LineKind::Bad => answer.word("bad"),
    }
    answer
}

/// The call `word TEXT` of a case of texts: whether the text is one word.
pub fn one_word(alloc: Global, given: &[Vec<u8>]) -> Result<Answer, Trouble> {
    let is_one = is_word(one_text(given)?);
    Ok(Answer::of_choice(alloc, is_one, "yes", "no"))
}
