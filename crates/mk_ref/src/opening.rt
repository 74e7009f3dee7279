//! What a `$` of a text opens: a `$$` pair or a reference.
ghost use Rattle.std.specs.Prelude.{◌≡◌, ◌+◌, ◌<◌, ◌≤◌, length, drop, OnSome};
ghost use Rattle.mk_ref.specs.Atoms.{opening_of};

/// What a `$` makes with the byte after it.
#[derive(Clone, Copy, Debug)]
pub enum Opening {
    /// `$$`.
    Doubled,
    /// `$` and an ASCII letter: a whole reference.
    Letter,
    /// `${` or `$(`, which begins a reference, with the mark that closes it.
    Marked(u8),
}

/// What the `$` at this index of a text makes with the byte after it: a `$$` pair, or a reference that begins
/// there. It is `None` if another byte is at this index, and if the `$` is itself.
pub fn opening_at(bytes: &[u8], at: usize) -> Option<Opening>
    requires { at < length bytes.now }
    ensures opening { result ≡ opening_of (drop at bytes.now) }
    ensures inside { OnSome result (at + 2 ≤ length bytes.now) }
{
    if bytes[at] != b'$' || at + 1 == bytes.len() {
        return None;
    }
    match bytes[at + 1] {
        b'$' => Some(Opening::Doubled),
        b'{' => Some(Opening::Marked(b'}')),
        b'(' => Some(Opening::Marked(b')')),
        letter => {
            if letter.is_ascii_alphabetic() {
                Some(Opening::Letter)
            } else {
                None
            }
        }
    }
}
