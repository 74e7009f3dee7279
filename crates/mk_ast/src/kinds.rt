//! What the kinds of lines are: directives, operators of assignments, and the other kinds.

/// The word of a directive.
#[derive(Debug, Clone, Copy, PartialEq, Eq)]
pub enum Directive {
    /// `.if`
    If,
    /// `.ifdef`
    Ifdef,
    /// `.ifndef`
    Ifndef,
    /// `.ifmake`
    Ifmake,
    /// `.ifnmake`
    Ifnmake,
    /// `.elif`
    Elif,
    /// `.elifdef`
    Elifdef,
    /// `.elifndef`
    Elifndef,
    /// `.elifmake`
    Elifmake,
    /// `.elifnmake`
    Elifnmake,
    /// `.else`
    Else,
    /// `.endif`
    Endif,
    /// `.for`
    For,
    /// `.endfor`
    Endfor,
    /// `.include`
    Include,
    /// `.sinclude`
    Sinclude,
    /// `.undef`
    Undef,
}

/// The operator of an assignment.
#[derive(Debug, Clone, Copy, PartialEq, Eq)]
pub enum Operator {
    /// `=`, which sets.
    Set,
    /// `?=`, which sets a variable that isn't defined.
    Default,
    /// `+=`, which appends.
    Append,
    /// `:=`, which expands the value and sets.
    Expand,
    /// `!=`, which sets to what a shell's command writes.
    Shell,
}

/// What a line is. Its texts are slices of the line.
#[derive(Debug, Clone, Copy, PartialEq, Eq)]
pub enum LineKind<'t> {
    /// A command for a shell.
    Command,
    /// Nothing but blanks.
    Blank,
    /// A directive.
    Directive {
        /// Its word.
        word: Directive,
        /// What directly follows the word.
        rest: &'t str,
    },
    /// An assignment to a variable.
    Assignment {
        /// How it assigns.
        operator: Operator,
        /// The variable's name: a word, which may hold references.
        name: &'t str,
        /// What follows the `=`, without the blanks that it begins with.
        value: &'t str,
    },
    /// A dependency of targets on others.
    Dependency,
    /// None of these.
    Bad,
}
