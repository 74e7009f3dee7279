//! Package paths: read from texts, printed in the canonical form, and compared.
ghost use Rattle.std.specs.Prelude.{◌≡◌, ◌↔◌, IsTrue, IfOk, map, option_map, Some};
ghost use Rattle.std.specs.String.{string_bytes};
ghost use Rattle.std.specs.Option.{option_copied};
ghost use Rattle.std.specs.Str.{bytes_eq};
ghost use Rattle.std.specs.Cmp.{partial_equiv_from_equiv};
ghost use Rattle.std.proofs.lemmas.Cmp.{on_equiv, nat_list_eq_equiv};
ghost use Rattle.pkg_path.specs.Paths.{path_of, path_if_one, is_bare_directory, canonical, port_path, IsPath, without_subpackage};
ghost use Rattle.pkg_path.specs.Seen.{FailsReading, CopiesName, TellsSameName};

use crate::elements::{
    count_subpackages, cut_into_elements, flavors_of, is_well_written, subpackage_of,
};
use crate::faults::PkgPathFault;
use crate::flavors::{Flavors, copy_flavors, same_flavors, write_flavors};
use std::alloc::{AllocError, Global};
use std::fmt;
use std::marker::Model;

/// A package path: the directory of a port below a ports tree, the flavors that are chosen, and maybe a
/// subpackage, as in `editors/vim,gtk3,-lang` (pkgpath(7)).
///
/// It prints as its canonical text. Clauses see a `PathValue`.
#[derive(Debug, Drop)]
pub struct PkgPath {
    directory: String,
    flavors: Flavors,
    subpackage: Option<String>,
}

impl Model for PkgPath {
    ghost use Rattle.std.specs.Prelude.{option_map};
    ghost use Rattle.std.specs.String.{string_bytes};
    ghost use Rattle.pkg_path.specs.Paths.{PathValue, IsPath};
    ghost use Rattle.pkg_path.specs.Seen.{flavors_seen};

    ghost Value = { PathValue };

    ghost view = { λ path. record {
      directory = string_bytes path.directory;
      flavors = flavors_seen path.flavors;
      subpackage = option_map string_bytes path.subpackage;
    } };

    ghost invariant = { λ path. IsPath (record {
      directory = string_bytes path.directory;
      flavors = flavors_seen path.flavors;
      subpackage = option_map string_bytes path.subpackage;
    }) };
}

/// Whether a text is a package path that chooses no flavors and names no subpackage: a directory alone. It
/// takes no memory.
pub fn is_bare(text: &str) -> bool
    ensures { result ≡ is_bare_directory text.now }
{
    match text.split_once(',') {
        Some(_) => false,
        None => !text.is_empty() && is_well_written(text, text, &[]),
    }
}

impl PkgPath {
    /// The package path that a text names.
    ///
    /// Commas separate its elements. The first is the directory. The others may be in any order: one
    /// that begins with a dash is the subpackage, and one that doesn't is a flavor. If such an element
    /// is empty, it chooses no flavor. If every other element begins with a dash, or there is no other,
    /// the flavors are the port's default.
    ///
    /// The fault is the first that fits. It is `Empty` if the text is empty. It is `TwoSubpackages`
    /// if there is more than one subpackage. It is `BadCharacter` for a byte that isn't printable
    /// ASCII, a blank or one of `: | < > = *`. It is `BadCharacter` too if a part of the directory is
    /// empty, `.` or `..`, or if an element after the directory is a lone dash. Whenever memory runs
    /// out, it is `Memory`.
    pub fn read(alloc: Global, text: &str) -> Result<PkgPath, PkgPathFault>
        ensures ok { IfOk result (λ path. path_of text.now ≡ Ok path) }
        ensures empty { FailsReading result PkgPathFault.Empty text.now }
        ensures two { FailsReading result PkgPathFault.TwoSubpackages text.now }
        ensures bad { FailsReading result PkgPathFault.BadCharacter text.now }
    {
        if text.is_empty() {
            return Err(PkgPathFault::Empty);
        }
        let (directory, choices) = cut_into_elements(alloc, text)?;
        let choices = choices.as_slice();
        if count_subpackages(choices) > 1 {
            return Err(PkgPathFault::TwoSubpackages);
        }
        if !is_well_written(text, directory, choices) {
            return Err(PkgPathFault::BadCharacter);
        }
        Ok(PkgPath {
            directory: String::from_str(alloc, directory)?,
            flavors: flavors_of(alloc, choices)?,
            subpackage: subpackage_of(alloc, choices)?,
        })
    }

    /// The package path that a text names; `None` if it names none, whatever the refusal. It fails only if
    /// memory runs out.
    pub fn read_if_one(alloc: Global, text: &str) -> Result<Option<PkgPath>, AllocError>
        ensures { IfOk result (λ path. path ≡ path_if_one text.now) }
    {
        match PkgPath::read(alloc, text) {
            Ok(path) => Ok(Some(path)),
            Err(PkgPathFault::Empty) => Ok(None),
            Err(PkgPathFault::TwoSubpackages) => Ok(None),
            Err(PkgPathFault::BadCharacter) => Ok(None),
            Err(PkgPathFault::Memory(refused)) => Err(refused.into()),
        }
    }

    /// The canonical text of the package path: the directory, the flavors in the order of their bytes without
    /// doubles (a lone comma for the empty flavor), and the subpackage. It fails only if memory runs out.
    pub fn canonical(&self, alloc: Global) -> Result<String, AllocError>
        ensures { IfOk result (λ text. string_bytes text ≡ canonical self.now) }
    {
        format!(in alloc; "{self}")
    }

    /// The canonical text of the port that the package path names: without the subpackage. It fails only if
    /// memory runs out.
    pub fn port_path(&self, alloc: Global) -> Result<String, AllocError>
        ensures { IfOk result (λ text. string_bytes text ≡ port_path self.now) }
    {
        match self.flavors {
            Flavors::Default => String::from_str(alloc, self.directory.as_str()),
            Flavors::Explicit(_) => self.copy(alloc)?.without_sub().canonical(alloc),
        }
    }

    /// The package path without its subpackage.
    pub fn without_sub(self) -> PkgPath
        ensures { result ≡ without_subpackage self }
    {
        PkgPath {
            directory: self.directory,
            flavors: self.flavors,
            subpackage: None,
        }
    }

    /// A copy of the package path. It fails only if memory runs out.
    pub fn copy(&self, alloc: Global) -> Result<PkgPath, AllocError>
        ensures { IfOk result (λ path. path ≡ self.now) }
    {
        Ok(PkgPath {
            directory: String::from_str(alloc, self.directory.as_str())?,
            flavors: copy_flavors(alloc, &self.flavors)?,
            subpackage: copy_name(alloc, &self.subpackage)?,
        })
    }

    /// The directory of the package path, that of the port below a ports tree, such as `editors/vim`.
    pub fn directory(&self) -> &str
        ensures directory { result.now ≡ self.now.directory }
        ensures is_path { IsPath self.now }
    {
        self.directory.as_str()
    }

    /// The flavors that the package path chooses, if it chooses some: exactly these, in the order of their
    /// bytes, each once. An empty list is the empty flavor. `None` is the port's default flavor.
    pub fn flavors(&self) -> Option<&[String]>
        ensures { option_map (λ names. map string_bytes names.now) result ≡ self.now.flavors }
    {
        match &self.flavors {
            Flavors::Default => None,
            Flavors::Explicit(names) => Some(names.as_slice()),
        }
    }

    /// The subpackage of the package path with its dash, such as `-main`; `None` if none is named.
    pub fn subpackage(&self) -> Option<&str>
        ensures { option_copied result ≡ self.now.subpackage }
    {
        match &self.subpackage {
            Some(name) => Some(name.as_str()),
            None => None,
        }
    }
}

impl fmt::Display for PkgPath {
    ghost output = { λ path. Some (canonical path) };

    /// Writes the canonical text of the package path.
    #[tactic(auto, unfolding(crate::specs::Paths::canonical))]
    fn fmt<W: fmt::Write>(&self, f: &mut fmt::Formatter<W>) -> fmt::Result {
        f.write_str(self.directory.as_str())?;
        write_flavors(&self.flavors, f)?;
        if let Some(name) = &self.subpackage {
            f.write_str(",")?;
            f.write_str(name.as_str())?;
        }
        Ok(())
    }
}

impl PartialEq for PkgPath {
    ghost eq = { λ a b. bytes_eq (canonical a) (canonical b) };

    ghost laws = { partial_equiv_from_equiv (on_equiv canonical nat_list_eq_equiv) };

    /// Whether two package paths are the same, which is so exactly if their canonical texts are the same.
    fn eq(&self, other: &PkgPath) -> bool
        ensures same { IsTrue result ↔ (self.now ≡ other.now) }
        ensures texts { result ≡ bytes_eq (canonical self.now) (canonical other.now) }
    {
        self.directory == other.directory
            && same_flavors(&self.flavors, &other.flavors)
            && same_subpackage(&self.subpackage, &other.subpackage)
    }
}

impl Eq for PkgPath {
    ghost laws = { on_equiv canonical nat_list_eq_equiv };
}

/// A copy of the subpackage of a package path, if it names one.
fn copy_name(alloc: Global, name: &Option<String>) -> Result<Option<String>, AllocError>
    ensures { CopiesName result name.now }
{
    match name {
        Some(name) => Ok(Some(String::from_str(alloc, name.as_str())?)),
        None => Ok(None),
    }
}

/// Whether two package paths name the same subpackage, or both none.
fn same_subpackage(one: &Option<String>, other: &Option<String>) -> bool
    ensures { TellsSameName result one.now other.now }
{
    one == other
}
