//! How the text of an item is read: cut at colons into a spec, a path with versions, and a target.
ghost use Rattle.std.specs.Prelude.{◌≡◌, ◌==◌, ◌++◌, ◌∷◌, ℕ, List, false, IfOk, codes, option_map, position};
ghost use Rattle.std.specs.List.{list_any};
ghost use Rattle.std.specs.Option.{option_copied};
ghost use Rattle.port_deps.specs.ItemText as item_text;
ghost use Rattle.port_deps.specs.Seen.{parts_seen, BeginsWithNoColon};

use crate::wanted::Wanted;
use pkg_path::PkgPath;
use pkg_spec::{Spec, SpecFault};
use std::alloc::{AllocError, Global};

/// The parts of an item's text that say what the item asks for, not read yet.
#[derive(Drop)]
pub(crate) struct Parts<'a> {
    pub(crate) spec: Option<&'a str>,
    pub(crate) path: &'a str,
}

/// What the item of this text asks for, as `items` reads it; `None` if the text can't be read. It fails only if
/// memory runs out.
pub fn read_wanted(alloc: Global, text: &str) -> Result<Option<Wanted>, AllocError>
    ensures { IfOk result (λ wanted. wanted ≡ item_text.wanted_of text.now) }
{
    match named_parts(behind_colons(text)) {
        Some(parts) => wanted_in(alloc, parts.spec, parts.path),
        None => Ok(None),
    }
}

/// Whether the text of an item has a comma. If it has none, the path that the item names has none, and so
/// chooses no flavors. It takes no memory.
pub fn has_comma(text: &str) -> bool
    ensures has { result ≡ item_text.has_comma text.now }
    ensures plain { result ≡ false → item_text.NamesPlainPath text.now }
{
    holds(text, b',')
}

/// The text of an item without the colons that come first.
fn behind_colons(text: &str) -> &str
    ensures parts { item_text.parts_of_item result.now ≡ item_text.parts_of_item text.now }
    ensures begins { BeginsWithNoColon result.now }
{
    let mut left = text;
    while let Some(behind) = left.strip_prefix(':') {
        left = behind;
    }
    left
}

/// The parts of an item's text that say what the item asks for, a spec and a path; `None` if there are none
/// or more than three.
fn named_parts(text: &str) -> Option<Parts<'_>>
    requires { BeginsWithNoColon text.now }
    ensures { option_map parts_seen result ≡ item_text.named_parts (item_text.parts_of_item text.now) }
{
    if text.is_empty() {
        return None;
    }
    match text.split_once(':') {
        Some((first, others)) => of_more(first, others),
        None => Some(Parts {
            spec: None,
            path: text,
        }),
    }
}

/// The spec and the path in the text of an item, given its first part and the others, which colons separate.
fn of_more<'a>(first: &'a str, others: &'a str) -> Option<Parts<'a>>
    ensures { option_map parts_seen result
        ≡ item_text.named_parts (first.now ∷ item_text.cut_at_colons others.now) }
{
    match others.split_once(':') {
        Some((_path, targets)) if targets.contains(':') => None,
        Some((path, _target)) => Some(Parts {
            spec: Some(first),
            path,
        }),
        None => Some(of_two(first, others)),
    }
}

/// The spec and the path in an item of two parts: the second part is a target if the first is no spec.
fn of_two<'a>(first: &'a str, second: &'a str) -> Parts<'a>
    ensures { parts_seen result ≡ item_text.of_two first.now second.now }
{
    if is_spec(first) {
        Parts {
            spec: Some(first),
            path: second,
        }
    } else {
        Parts {
            spec: None,
            path: first,
        }
    }
}

/// Whether the first of an item's two parts is a spec.
fn is_spec(part: &str) -> bool
    ensures { result ≡ item_text.is_spec part.now }
{
    !holds(part, b'/') || holds(part, b'*') || holds(part, b'|')
}

/// Whether a byte is in a part of an item's text.
fn holds(text: &str, wanted: u8) -> bool
    ensures { result ≡ list_any (λ byte. byte == wanted) text.now }
{
    text.bytes().any(|byte| byte == wanted)
}

/// What the text of an item asks for, read from these parts of it, a spec and a path; `None` if they can't be
/// read.
fn wanted_in(alloc: Global, spec: Option<&str>, path: &str) -> Result<Option<Wanted>, AllocError>
    ensures { IfOk result (λ wanted. wanted
        ≡ item_text.wanted_in (record { spec = option_copied spec.entry; path = path.now })) }
{
    let (path, versions) = cut_at_sign(path);
    let Some(path) = PkgPath::read_if_one(alloc, path)? else {
        return Ok(None);
    };
    match spec {
        Some(spec) if versions.is_empty() => Ok(with_spec(path, read_spec(alloc, spec)?)),
        Some(_) => Ok(None),
        None if versions.is_empty() => Ok(Some(Wanted::new(path, None))),
        None => Ok(with_spec(path, read_versions(alloc, versions)?)),
    }
}

/// What an item asks for by its path and its spec; `None` if the spec can't be read.
fn with_spec(path: PkgPath, spec: Option<Spec>) -> Option<Wanted>
    ensures { result ≡ option_map (λ (spec : List ℕ). record { path = path; spec = spec }) spec }
{
    match spec {
        Some(spec) => Some(Wanted::new(path, Some(spec))),
        None => None,
    }
}

/// The path in an item's text, and the versions after it.
fn cut_at_sign(text: &str) -> (&str, &str)
    ensures path { result.0.now ≡ (item_text.at_sign text.now).before }
    ensures versions { result.1.now ≡ (item_text.at_sign text.now).behind }
{
    match sign_in(text) {
        Some(at) => (&text[..at], &text[at..]),
        None => (text, ""),
    }
}

/// The index in an item's text of the first sign of a comparison.
fn sign_in(text: &str) -> Option<usize>
    ensures { result ≡ position item_text.is_sign text.now }
{
    text.bytes().position(|byte| is_sign(byte))
}

/// Whether a byte begins the sign of a comparison of versions in an item's text.
fn is_sign(byte: u8) -> bool
    ensures { result ≡ item_text.is_sign byte }
{
    matches!(byte, b'<' | b'>' | b'=')
}

/// The spec of the versions after an item's path, of any stem; `None` if they are no spec.
fn read_versions(alloc: Global, versions: &str) -> Result<Option<Spec>, AllocError>
    ensures { IfOk result (λ spec. spec ≡ item_text.spec_if_one (codes "STEM-" ++ versions.now)) }
{
    read_spec(alloc, format!(in alloc; "STEM-{versions}")?.as_str())
}

/// The spec that a text in an item is; `None` if it is no spec.
fn read_spec(alloc: Global, text: &str) -> Result<Option<Spec>, AllocError>
    ensures { IfOk result (λ spec. spec ≡ item_text.spec_if_one text.now) }
{
    match Spec::read(alloc, text) {
        Ok(spec) => Ok(Some(spec)),
        Err(SpecFault::NoStem) => Ok(None),
        Err(SpecFault::BadVersion) => Ok(None),
        Err(SpecFault::EmptyAlternative) => Ok(None),
        Err(SpecFault::Memory(refused)) => Err(refused.into()),
    }
}
