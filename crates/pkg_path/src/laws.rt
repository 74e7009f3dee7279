//! What holds of all package paths. Each function does nothing: its clause is the law.
ghost use Rattle.pkg_path.specs.Laws.{CanonicalNamesThePath, SameTextSamePath, StaysAPath};

/// Reading the canonical text of a package path gives the same path.
pub fn canonical_names_the_path()
    ensures { CanonicalNamesThePath }
{}

/// Two package paths are the same exactly if their canonical texts are the same.
pub fn same_text_same_path()
    ensures { SameTextSamePath }
{}

/// A package path without its subpackage is a package path.
pub fn stays_a_path()
    ensures { StaysAPath }
{}
