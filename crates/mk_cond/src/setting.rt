//! The setting of a condition: the variables, the makefile, the directive's form and the text.

use crate::forms::Form;
use mk_env::Env;
use mk_paths::Name;

/// A condition in its surroundings.
#[derive(Clone, Copy)]
pub struct Setting<'a> {
    /// The variables, with what their names mean.
    pub variables: &'a Env,
    /// The makefile; files are looked for under its directory.
    pub makefile: &'a Name,
    /// What the directive makes of the condition.
    pub form: Form,
    /// The text of the condition.
    pub text: &'a str,
}
