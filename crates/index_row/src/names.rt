//! The names of packages in the bytes of a row: how they are written and read.
ghost use Rattle.std.specs.Prelude.{◌≡◌, IfOk, OnOk, IsTrue, Some};
ghost use Rattle.pkg_name.specs.Name.{split_name};
ghost use Rattle.index_row.specs.Names.{name};
ghost use Rattle.index_row.specs.Answers.{Gives, Adds};

use crate::scalars::{read_str, write_text};
use crate::unread::Unread;
use pkg_name::{NameFault, PkgName};
use std::alloc::{AllocError, Global};

/// Reads the name of a package from the bytes of a row.
#[tactic(auto, unfolding(crate::specs::Names::name))]
pub(crate) fn read_name(alloc: Global, bytes: &[u8]) -> Result<(PkgName, &[u8]), Unread>
    ensures { Gives (λ x. (x.0, x.1.now)) result (name bytes.now) }
{
    let (text, rest) = read_str(bytes)?;
    match PkgName::split(alloc, text) {
        Ok(name) => Ok((name, rest)),
        Err(NameFault::NoName) => Err(Unread::Damaged),
        Err(NameFault::Memory(refused)) => Err(Unread::Memory(refused)),
    }
}

/// Writes the name of a package into the bytes of a row, as its text, which is split into the name again.
pub(crate) fn write_name(
    alloc: Global,
    out: &mut Vec<u8>,
    written: &PkgName,
) -> Result<(), AllocError>
    ensures { OnOk result (Adds name out.old.items out.new.items written.now) }
{
    let text = written.text(alloc)?;
    write_text(out, text.as_str())
}
