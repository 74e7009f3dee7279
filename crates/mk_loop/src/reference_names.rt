//! The names of references in a line of a loop's body, which may be loop variables.
ghost use Rattle.std.specs.Prelude.{◌≤◌, ◌<◌, length};
ghost use Rattle.mk_loop.specs.Places.{EndsName};

use mk_ref::{Opening, opening_at};

/// The index of the colon or the closing mark that follows the name of a reference in a line of a loop's
/// body. The inside of the reference begins at `start`, and `closing` closes it. `None` if there is a
/// reference in the name.
pub(crate) fn name_end(bytes: &[u8], start: usize, closing: u8) -> Option<usize>
    requires start { start ≤ length bytes.now }
    requires ascii { closing < 128 }
    ensures { EndsName bytes.now start closing result }
{
    let mut at = start;
    while at < bytes.len() {
        if bytes[at] == closing || bytes[at] == b':' {
            return Some(at);
        }
        match opening_at(bytes, at) {
            None => at += 1,
            Some(Opening::Doubled) => at += 2,
            Some(Opening::Letter) => return None,
            Some(Opening::Marked(_)) => return None,
        }
    }
    None
}
