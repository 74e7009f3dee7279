//! Cases of packages: package paths, package names with versions, and package specs.
use case_lines::{Answer, Trouble, as_text, one_text};
use pkg_name::{NameFault, PkgName, Version, VersionFault};
use pkg_path::{PkgPath, PkgPathFault};
use pkg_spec::{Spec, SpecFault};
use std::alloc::Global;
use std::cmp::Ordering;

/// The call `path TEXT` of a case of packages: the canonical text of the package path, and `twice` if reading
/// that text gives another path; or the number of the path's refusal.
pub fn canonical_path(alloc: Global, given: &[Vec<u8>]) -> Result<Answer, Trouble> {
    match PkgPath::read(alloc, one_text(given)?) {
        Ok(path) => canonical_answer(alloc, &path),
        Err(PkgPathFault::Memory(refused)) => Err(Trouble::Memory(refused)),
        Err(fault) => Ok(refused(alloc, fault.number())),
    }
}

/// Shows a package path in a case by its canonical text, and `twice` if reading that text gives another path.
fn canonical_answer(alloc: Global, path: &PkgPath) -> Result<Answer, Trouble> {
    let canonical = path.canonical(alloc)?;
    let mut answer = Answer::of_text(alloc, canonical.as_str());
    if path_of(alloc, canonical.as_str())? != *path {
        answer.word("twice");
    }
    Ok(answer)
}

/// The package path that a case gives as a text. It is `NoCase` if the text is no path.
pub fn path_of(alloc: Global, text: &str) -> Result<PkgPath, Trouble> {
    PkgPath::read(alloc, text).map_err(|fault| match fault {
        PkgPathFault::Memory(refused) => Trouble::Memory(refused),
        _ => Trouble::NoCase,
    })
}

/// The answer of a case of packages whose path or spec is refused, with the number of the refusal.
fn refused(alloc: Global, number: Option<u8>) -> Answer {
    let mut answer = Answer::of_word(alloc, "refused");
    answer.number(u64::from(number.unwrap_or(0)));
    answer
}

/// The call `parts of path TEXT` of a case of packages: the directory of the package path, its flavors (or
/// `default`), its subpackage after `sub`, and the path without that.
pub fn parts_of_path(alloc: Global, given: &[Vec<u8>]) -> Result<Answer, Trouble> {
    let path = path_of(alloc, one_text(given)?)?;
    let mut answer = Answer::of_text(alloc, path.directory());
    match path.flavors() {
        None => answer.word("default"),
        Some(names) => add_texts(&mut answer, names),
    }
    if let Some(name) = path.subpackage() {
        answer.word("sub");
        answer.text(name.as_bytes());
    }
    answer.word("without");
    answer.text(path.without_sub().canonical(alloc)?.as_bytes());
    Ok(answer)
}

/// Adds texts, as the flavors of a package path, to the answer of a case, each in quotes.
pub fn add_texts(answer: &mut Answer, texts: &[String]) {
    for text in texts {
        answer.text(text.as_bytes());
    }
}

/// The call `same path TEXT TEXT` of a case of packages: whether the two texts are one package path, and
/// whether they print alike.
pub fn same_path(alloc: Global, given: &[Vec<u8>]) -> Result<Answer, Trouble> {
    let [one, other] = given else {
        return Err(Trouble::NoCase);
    };
    let one = path_of(alloc, as_text(one)?)?;
    let other = path_of(alloc, as_text(other)?)?;
    same_answer(alloc, &one, &other)
}

/// Shows in a case whether two package paths are one, or `both` if they print otherwise than they compare.
fn same_answer(alloc: Global, one: &PkgPath, other: &PkgPath) -> Result<Answer, Trouble> {
    let printed = format!(in alloc; "{one}")?;
    let alike = printed == format!(in alloc; "{other}")?;
    if alike != (one == other) {
        return Ok(Answer::of_word(alloc, "both"));
    }
    Ok(Answer::of_choice(alloc, alike, "yes", "no"))
}

/// The call `package name TEXT` of a case of packages: stem, version and flavors, and how the name prints if
/// that is another text; or `NoName`.
pub fn package_name(alloc: Global, given: &[Vec<u8>]) -> Result<Answer, Trouble> {
    let text = one_text(given)?;
    match PkgName::split(alloc, text) {
        Ok(name) => name_answer(alloc, &name, text),
        Err(NameFault::NoName) => Ok(Answer::of_word(alloc, "NoName")),
        Err(NameFault::Memory(refused)) => Err(Trouble::Memory(refused)),
    }
}

/// Shows a package name in a case: stem, version and flavors, and how it prints if that is another text.
fn name_answer(alloc: Global, name: &PkgName, text: &str) -> Result<Answer, Trouble> {
    let mut answer = Answer::of_text(alloc, name.stem());
    answer.text(name.version().as_str().as_bytes());
    add_texts(&mut answer, name.flavors());
    let printed = name.text(alloc)?;
    if printed.as_str() != text {
        answer.word("prints");
        answer.text(printed.as_bytes());
    }
    Ok(answer)
}

/// The call `version TEXT` of a case of packages: the version of a package as it prints, or `NoVersion`.
pub fn version(alloc: Global, given: &[Vec<u8>]) -> Result<Answer, Trouble> {
    match Version::read(alloc, one_text(given)?) {
        Ok(version) => version_answer(alloc, &version),
        Err(VersionFault::NoVersion) => Ok(Answer::of_word(alloc, "NoVersion")),
        Err(VersionFault::Memory(refused)) => Err(Trouble::Memory(refused)),
    }
}

/// Shows the version of a package in a case as it prints, or `both` if it has another text.
fn version_answer(alloc: Global, version: &Version) -> Result<Answer, Trouble> {
    if format!(in alloc; "{version}")?.as_str() == version.as_str() {
        Ok(Answer::of_text(alloc, version.as_str()))
    } else {
        Ok(Answer::of_word(alloc, "both"))
    }
}

/// The version of a package that a case gives as a text. It is `NoCase` if the text is no version.
fn version_of(alloc: Global, text: &[u8]) -> Result<Version, Trouble> {
    Version::read(alloc, as_text(text)?).map_err(|fault| match fault {
        VersionFault::Memory(refused) => Trouble::Memory(refused),
        VersionFault::NoVersion => Trouble::NoCase,
    })
}

/// The call `version order TEXT..` of a case of packages: `rising` if each version is lower than each later
/// one and equal to itself, however two are compared; else the first two that aren't.
pub fn version_order(alloc: Global, given: &[Vec<u8>]) -> Result<Answer, Trouble> {
    let mut versions = Vec::new(alloc);
    for text in given {
        versions.push(version_of(alloc, text)?)?;
    }
    Ok(order_answer(alloc, versions.as_slice()))
}

/// Shows in a case of packages whether versions rise: `rising`, or the first two that don't.
fn order_answer(alloc: Global, versions: &[Version]) -> Answer {
    for (place, one) in versions.iter().enumerate() {
        for (other_place, other) in versions.iter().enumerate() {
            if !is_ordered(one, other, place.cmp(&other_place)) {
                let mut answer = Answer::of_text(alloc, one.as_str());
                answer.text(other.as_str().as_bytes());
                return answer;
            }
        }
    }
    Answer::of_word(alloc, "rising")
}

/// Whether every comparison of two versions of packages gives this order, for a case.
fn is_ordered(one: &Version, other: &Version, order: Ordering) -> bool {
    one.cmp(other) == order
        && (*one < *other) == (order == Ordering::Less)
        && (*one == *other) == (order == Ordering::Equal)
}

/// The call `spec TEXT NAME..` of a case of packages: those of the package names that the spec admits; or the
/// number of the spec's refusal.
pub fn spec(alloc: Global, given: &[Vec<u8>]) -> Result<Answer, Trouble> {
    let [text, names @ ..] = given else {
        return Err(Trouble::NoCase);
    };
    let text = as_text(text)?;
    match Spec::read(alloc, text) {
        Ok(spec) => spec_answer(alloc, &spec, text, names),
        Err(SpecFault::Memory(refused)) => Err(Trouble::Memory(refused)),
        Err(fault) => Ok(refused(alloc, fault.number())),
    }
}

/// Shows in a case of packages the names that a spec admits, and how the spec prints if that is another text.
fn spec_answer(
    alloc: Global,
    spec: &Spec,
    text: &str,
    names: &[Vec<u8>],
) -> Result<Answer, Trouble> {
    let mut answer = Answer::new(alloc);
    for name in names {
        if is_admitted(alloc, spec, name)? {
            answer.text(name);
        }
    }
    let printed = format!(in alloc; "{spec}")?;
    if printed.as_str() != spec.as_str() || printed.as_str() != text {
        answer.word("prints");
        answer.text(printed.as_bytes());
    }
    Ok(answer)
}

/// Whether a spec admits the package name that a case gives as a text. It is `NoCase` if the text is no name.
fn is_admitted(alloc: Global, spec: &Spec, name: &[u8]) -> Result<bool, Trouble> {
    match PkgName::split(alloc, as_text(name)?) {
        Ok(name) => Ok(spec.matches(&name)),
        Err(_) => Err(Trouble::NoCase),
    }
}
