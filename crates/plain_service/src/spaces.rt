//! The spaces, blanks and line feeds, around a text in the body of a request.
ghost use Rattle.std.specs.Prelude.{◌≡◌, reverse};
ghost use Rattle.plain_service.specs.Spaces.{is_space as is_space_byte, skip_spaces, trimmed as trimmed_text};

/// The bytes of a request's body without the spaces, blanks and line feeds, at both ends.
pub fn trimmed(bytes: &[u8]) -> &[u8]
    ensures { result.now ≡ trimmed_text bytes.now }
{
    without_last_spaces(without_first_spaces(bytes))
}

/// Whether a byte of a request's body is a space: a blank or a line feed.
fn is_space(byte: u8) -> bool
    ensures { result ≡ is_space_byte byte }
{
    matches!(byte, b' ' | b'\t' | b'\n')
}

/// The bytes of a request's body without the spaces that come first.
fn without_first_spaces(bytes: &[u8]) -> &[u8]
    ensures { result.now ≡ skip_spaces bytes.now }
{
    let mut kept = bytes;
    while let Some((first, rest)) = kept.split_first() {
        if !is_space(*first) {
            return kept;
        }
        kept = rest;
    }
    kept
}

/// The bytes of a request's body without the spaces that come last.
fn without_last_spaces(bytes: &[u8]) -> &[u8]
    ensures { result.now ≡ reverse (skip_spaces (reverse bytes.now)) }
{
    let mut kept = bytes;
    while let Some((last, rest)) = kept.split_last() {
        if !is_space(*last) {
            return kept;
        }
        kept = rest;
    }
    kept
}
