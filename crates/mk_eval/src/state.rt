//! The state of an evaluation between two lines: its variables, and what was said of the makefile.

use crate::outcome::Kind;
use mk_env::Env;
use mk_paths::SearchPath;

/// The state of an evaluation between two lines.
#[derive(Drop)]
pub struct EvalState {
    /// The variables, and the make language of the makefile.
    pub variables: Env,
    /// What the makefile describes, as far as was said yet.
    pub kind: Kind,
    /// Whether `<bsd.port.mk>` was included.
    pub shared_asked: bool,
    /// The trees that are searched for modules, which stay the same.
    pub path: SearchPath,
}
