//! Logical lines and words of makefiles, the limit of their texts, and the profiles of the language.
#![tactic(auto)]

mod blanks;
mod comments;
mod limits;
mod lines;
mod profile;
mod word_spans;

pub use blanks::{is_blank, skip_blanks, trim_blanks};
pub use limits::{TEXT_LIMIT, TextFault, add_text, text_limit};
pub use lines::{Logical, logical_lines};
pub use profile::Profile;
pub use word_spans::{Span, words};
