//! The forms of the directives that have conditions, as `.if` and `.ifndef`.
ghost use Rattle.std.specs.Prelude.{◌≡◌, ◌<◌, ◌+◌, true, length, take, drop, slice_index, option_map};
ghost use Rattle.std.specs.List.{position};
ghost use Rattle.mk_text.specs.Blanks.{is_blank};
ghost use Rattle.mk_cond.specs.Forms.{form_named, parted, shown_parts};

use mk_cond_tree::Call;
use mk_text::is_blank;

/// What a directive makes of its condition (make(1), "CONDITIONALS").
#[derive(Debug, Clone, Copy, PartialEq, Eq)]
pub struct Form {
    /// What a lone word of the condition asks.
    pub word: Call,
    /// Whether the truth of the whole is negated.
    pub negated: bool,
}

/// The form of the directive that a text begins with, as `ifdef`, and the condition after the blank that ends
/// the directive's word.
pub(crate) fn parted(text: &str) -> Option<(Form, &str)>
    ensures { option_map shown_parts result ≡ parted text.now }
{
    let Some(at) = first_blank(text.as_bytes()) else {
        return None;
    };
    let (word, condition) = cut_at(text, at);
    match form_named(word) {
        Some(form) => Some((form, condition)),
        None => None,
    }
}

/// The index of the first blank in the text of a directive and its condition.
fn first_blank(bytes: &[u8]) -> Option<usize>
    ensures { result ≡ position is_blank bytes.now }
{
    bytes.iter().position(|byte| is_blank(*byte))
}

/// The text of a directive cut at the blank at this index: the directive's word, and the condition.
fn cut_at(text: &str, at: usize) -> (&str, &str)
    requires within { at < length text.now }
    requires blank { is_blank (slice_index text.now at) ≡ true }
    ensures before { result.0.now ≡ take at text.now }
    ensures behind { result.1.now ≡ drop (at + 1) text.now }
{
    (&text[..at], &text[at + 1..])
}

/// The form of the directive with this word, as `if` or `elifndef`; `None` if it has no condition.
fn form_named(word: &str) -> Option<Form>
    ensures { result ≡ form_named word.now }
{
    match word {
        "if" | "ifdef" | "elif" | "elifdef" => Some(form_of(Call::Defined, false)),
        "ifndef" | "elifndef" => Some(form_of(Call::Defined, true)),
        "ifmake" | "elifmake" => Some(form_of(Call::Make, false)),
        "ifnmake" | "elifnmake" => Some(form_of(Call::Make, true)),
        _ => None,
    }
}

/// The form of a directive: what a lone word of its condition asks, and whether the truth is negated.
fn form_of(word: Call, negated: bool) -> Form
    ensures { result ≡ record { word = word; negated = negated } }
{
    Form { word, negated }
}
