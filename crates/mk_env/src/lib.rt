//! Variables of a makefile, and what texts that refer to them expand to (make(1), "VARIABLES").
#![tactic(auto)]

mod bounded_texts;
mod expansion;
mod insides;
mod laws;
mod mentions;
mod modifiers;
mod references;
mod scope;
mod variables;

pub use expansion::{REFERENCE_LEVELS, expand, expand_inside, expand_now, expand_variable, modify};
pub use laws::plain_substitution_is_applied;
pub use variables::Env;
