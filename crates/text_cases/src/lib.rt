//! Cases of texts: lines, references, patterns, modifiers, kinds of lines, the trees of makefiles and of
//! conditions, and the paths, names and specs of packages.
#![tactic(auto)]

mod conditions;
mod packages;
mod texts;
mod trees;

use case_lines::{Answer, Trouble};
use mk_text::Profile;
pub use packages::{add_texts, path_of};
use std::alloc::Global;

/// What the call of a case's line gives, if it is a call of texts, trees, conditions or packages. The error
/// is `NoCase` if the line is in no form of a case, and `Memory` if memory runs out.
pub fn answer(alloc: Global, call: &str, given: &[Vec<u8>]) -> Result<Answer, Trouble> {
    match call {
        "lines" => texts::lines_of(alloc, given),
        "words" => texts::words_of(alloc, given),
        "trim" => texts::without_blanks(alloc, given, true),
        "skip" => texts::without_blanks(alloc, given, false),
        "blanks" => Ok(texts::blanks(alloc)),
        "pieces" => texts::pieces_of(alloc, given),
        "number of pieces" => texts::number_of_pieces(alloc, given),
        "glob" => texts::fits(alloc, given),
        "modifiers of" => texts::modified(alloc, Profile::One, given),
        "modifiers in second profile of" => texts::modified(alloc, Profile::Two, given),
        "modifiers as read" => texts::modifiers_as_read(alloc, Profile::One, given),
        "modifiers in second profile as read" => {
            texts::modifiers_as_read(alloc, Profile::Two, given)
        }
        "substitute in" => texts::substituted(alloc, given),
        "line" => texts::kind_of_line(alloc, given),
        "plain line" => texts::plain_kind_of_line(alloc, given),
        "outside" => texts::outside_references(alloc, given),
        "tree" => trees::tree_of(alloc, given),
        "condition" => conditions::condition(alloc, given),
        "conjunctions" => conditions::conjunctions(alloc, given),
        "word" => texts::one_word(alloc, given),
        _ => answer_of_packages(alloc, call, given),
    }
}

/// What the call of a case's line gives, if it is a call of packages: of paths, names, versions and specs.
fn answer_of_packages(alloc: Global, call: &str, given: &[Vec<u8>]) -> Result<Answer, Trouble> {
    match call {
        "path" => packages::canonical_path(alloc, given),
        "parts of path" => packages::parts_of_path(alloc, given),
        "same path" => packages::same_path(alloc, given),
        "package name" => packages::package_name(alloc, given),
        "version" => packages::version(alloc, given),
        "version order" => packages::version_order(alloc, given),
        "spec" => packages::spec(alloc, given),
        _ => Err(Trouble::NoCase),
    }
}
