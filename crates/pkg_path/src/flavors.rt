//! The flavors that a package path chooses: compared, copied and written.
ghost use Rattle.std.specs.Prelude.{◌≡◌, ◌↔◌, IsTrue, IfOk, map, string_bytes};
ghost use Rattle.pkg_path.specs.Seen.{flavors_seen, WritesChoices, WritesFlavors};

use std::alloc::{AllocError, Global};
use std::fmt;
use text_parts::clones_of;

/// The flavors that a package path chooses.
#[derive(Debug, Drop, PartialEq, Eq)]
pub(crate) enum Flavors {
    /// None are chosen: the port's default flavor.
    Default,
    /// Exactly these, in the order of their bytes, each once; if there are none, it is the empty flavor.
    Explicit(Vec<String>),
}

/// Whether two package paths choose the same flavors.
pub(crate) fn same_flavors(one: &Flavors, other: &Flavors) -> bool
    ensures { IsTrue result ↔ (flavors_seen one.now ≡ flavors_seen other.now) }
{
    match (one, other) {
        (Flavors::Default, Flavors::Default) => true,
        (Flavors::Explicit(names), Flavors::Explicit(others)) => same_names(names, others),
        _ => false,
    }
}

/// Whether two lists of flavors have the same names, in the same order.
fn same_names(names: &[String], others: &[String]) -> bool
    ensures { IsTrue result ↔ (map string_bytes names.now ≡ map string_bytes others.now) }
{
    names == others
}

/// A copy of the flavors that a package path chooses.
pub(crate) fn copy_flavors(alloc: Global, flavors: &Flavors) -> Result<Flavors, AllocError>
    ensures { IfOk result (λ copied. flavors_seen copied ≡ flavors_seen flavors.now) }
{
    match flavors {
        Flavors::Default => Ok(Flavors::Default),
        Flavors::Explicit(names) => Ok(Flavors::Explicit(clones_of(alloc, names)?)),
    }
}

/// Writes the flavors that a package path chooses as its text has them, each after a comma.
pub(crate) fn write_flavors<W: fmt::Write>(
    flavors: &Flavors,
    f: &mut fmt::Formatter<W>,
) -> fmt::Result
    ensures { WritesFlavors W.write_str_gives result f.old f.new flavors.now }
{
    match flavors {
        Flavors::Default => Ok(()),
        Flavors::Explicit(names) if names.is_empty() => f.write_str(","),
        Flavors::Explicit(names) => write_names(names, f),
    }
}

/// Writes the names of flavors, each after a comma.
fn write_names<W: fmt::Write>(names: &[String], f: &mut fmt::Formatter<W>) -> fmt::Result
    ensures { WritesChoices W.write_str_gives result f.old f.new (map string_bytes names.now) }
{
    for name in names {
        f.write_str(",")?;
        f.write_str(name.as_str())?;
    }
    Ok(())
}
