//! Modifiers of references in makefiles: read, and applied to values.
#![tactic(auto)]

mod bounded_words;
mod laws;
mod marks;
mod modified_values;
mod modifier_lists;
mod modifiers;
mod substitution;
mod substitution_signs;
mod suffix_modifier;
mod word_maps;

pub use laws::{acts_at_least_places, signs_are_read_in_turn};
pub use modified_values::apply;
pub use modifier_lists::{Mods, ModsFault};
pub use modifiers::{Modifier, Part, Substitution, WordMap};
pub use substitution::substitute;
