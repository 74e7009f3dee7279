//! Where the atoms of a text end: references, `$$` pairs and single bytes.
ghost use Rattle.std.specs.Prelude.{◌≡◌, ◌+◌, ◌<◌, ◌≤◌, length, drop, IfOk};
ghost use Rattle.mk_ref.specs.Ends.{EndsAt, AtomEndsAt, EndsInside};

use crate::opening::{Opening, opening_at};
use std::alloc::{AllocError, Global};

/// The places of what is inside a reference with marks.
#[derive(Clone, Copy, Debug)]
pub(crate) struct Inside {
    /// The index of the first colon outside inner references, if there is one.
    pub(crate) colon: Option<usize>,
    /// The index of the closing mark.
    pub(crate) close: usize,
}

/// The index after the mark that closes the reference whose inside begins at `start`. Inner references are
/// passed over. It is `None` if nothing closes it.
pub(crate) fn after_mark(
    alloc: Global,
    bytes: &[u8],
    start: usize,
    closing: u8,
) -> Result<Option<usize>, AllocError>
    requires { start ≤ length bytes.now }
    ensures { IfOk result (EndsAt bytes.now start closing) }
{
    let mut around = Vec::new(alloc);
    let mut mark = closing;
    let mut at = start;
    while at < bytes.len() {
        if bytes[at] == mark {
            at += 1;
            match around.pop() {
                Some(outer) => mark = outer,
                None => return Ok(Some(at)),
            }
            continue;
        }
        match opening_at(bytes, at) {
            Some(Opening::Marked(inner)) => {
                around.push(mark)?;
                mark = inner;
                at += 2;
            }
            Some(Opening::Doubled) => at += 2,
            Some(Opening::Letter) => at += 2,
            None => at += 1,
        }
    }
    Ok(None)
}

/// The index after the atom of a text that begins at `at`: after a reference, a `$$` pair or a single byte.
/// It is `None` if a reference begins there that doesn't end.
fn after_atom(alloc: Global, bytes: &[u8], at: usize) -> Result<Option<usize>, AllocError>
    requires { at < length bytes.now }
    ensures { IfOk result (AtomEndsAt bytes.now at) }
{
    match opening_at(bytes, at) {
        Some(Opening::Marked(closing)) => after_mark(alloc, bytes, at + 2, closing),
        Some(Opening::Doubled) => Ok(Some(at + 2)),
        Some(Opening::Letter) => Ok(Some(at + 2)),
        None => Ok(Some(at + 1)),
    }
}

/// The places of the first colon and of the closing mark of a reference. Its inside begins at `start`, and
/// `closing` closes it. It is `None` if the reference doesn't end.
pub(crate) fn inside_from(
    alloc: Global,
    bytes: &[u8],
    start: usize,
    closing: u8,
) -> Result<Option<Inside>, AllocError>
    requires { start ≤ length bytes.now }
    ensures { IfOk result (EndsInside bytes.now start closing) }
{
    let mut colon = None;
    let mut at = start;
    while at < bytes.len() {
        if bytes[at] == closing {
            return Ok(Some(Inside { colon, close: at }));
        }
        if bytes[at] == b':' && colon.is_none() {
            colon = Some(at);
        }
        match after_atom(alloc, bytes, at)? {
            Some(behind) => at = behind,
            None => return Ok(None),
        }
    }
    Ok(None)
}
