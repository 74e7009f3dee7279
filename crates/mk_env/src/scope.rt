//! The scope in which the references of a text are expanded: variables, names under way, and levels.
ghost use Rattle.std.specs.Prelude.{◌≡◌, ◌≢◌};
ghost use Rattle.mk_env.specs.declared.scope.Active.TheVariants as active;
ghost use Rattle.mk_env.specs.declared.scope.Undefined.TheVariants as kept;
ghost use Rattle.mk_env.specs.Expansion as meaning;
ghost use Rattle.mk_env.specs.ActiveNames.{names_of, scope_inside, is_kept_in};

use crate::Env;
use crate::expansion::REFERENCE_LEVELS;

/// What becomes of a reference to a variable that isn't defined.
#[derive(Clone, Copy, Debug, PartialEq, Eq)]
pub(crate) enum Undefined {
    /// It gives nothing.
    Empty,
    /// It stays as it is written.
    Kept,
}

/// The names whose values are being expanded, the innermost first.
#[derive(Clone, Copy)]
pub(crate) enum Active<'a> {
    Nothing,
    Name(&'a str, &'a Active<'a>),
}

impl Active<'_> {
    /// Whether the value of the variable of this name is being expanded.
    pub(crate) fn contains(&self, name: &str) -> bool
        ensures { result ≡ meaning.is_among name.now (names_of self.now) }
    {
        match self {
            Active::Nothing => false,
            Active::Name(first, outer) => *first == name || outer.contains(name),
        }
    }
}

/// What the references of a text are expanded with.
#[derive(Clone, Copy)]
pub(crate) struct ExpansionScope<'a> {
    /// The variables, with what their names mean.
    pub(crate) variables: &'a Env,
    /// The names whose values are being expanded.
    pub(crate) active: Active<'a>,
    /// How many references may be nested in it.
    pub(crate) levels: u32,
    /// What becomes of its references to variables that aren't defined.
    pub(crate) undefined: Undefined,
}

impl<'a> ExpansionScope<'a> {
    /// The scope of the expansion of a text that is inside no reference.
    pub(crate) fn outermost(variables: &'a Env) -> ExpansionScope<'a>
        ensures variables { result.variables ≡ variables.entry }
        ensures active { result.active ≡ active.Nothing }
        ensures levels { result.levels ≡ 32 }
        ensures undefined { result.undefined ≡ kept.Empty }
    {
        ExpansionScope {
            variables,
            active: Active::Nothing,
            levels: REFERENCE_LEVELS,
            undefined: Undefined::Empty,
        }
    }

    /// The scope in which the inside of a reference is expanded: its name and its modifiers.
    pub(crate) fn inside(self) -> ExpansionScope<'a>
        requires { self.levels ≢ 0 }
        ensures { result ≡ scope_inside self.entry }
    {
        ExpansionScope {
            levels: self.levels - 1,
            undefined: Undefined::Empty,
            ..self
        }
    }

    /// Whether in this scope a reference to the variable of this name is kept as it is written.
    pub(crate) fn keeps(&self, name: &str) -> bool
        ensures { result ≡ is_kept_in self.now name.now }
    {
        match self.undefined {
            Undefined::Empty => false,
            Undefined::Kept => !self.variables.defined(name),
        }
    }
}
