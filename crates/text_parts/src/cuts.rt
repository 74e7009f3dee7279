//! A text cut in two at a mark.
ghost use Rattle.std.specs.Prelude.{◌<◌, IfSome};
ghost use Rattle.text_parts.specs.Cuts.{IsMarkAt, CutsWhere, FindsMark};

/// The part of `text` before a mark and the part after it, as slices: the text cut in two. The mark is the
/// first `mark` for which `passes` answers true; `passes` is given all that follows the mark, as bytes. If
/// there is no such mark, it is `None`.
pub fn cut_where<F: Fn(&[u8]) -> bool>(text: &str, mark: char, passes: F) -> Option<(&str, &str)>
    requires ascii { mark < 128 }
    requires callable { F.IsAlwaysCallable passes }
    ensures { CutsWhere F.Fn passes result mark text.now }
{
    let at = mark_where(text.as_bytes(), mark as u8, passes)?;
    Some((&text[..at], &text[at + 1..]))
}

/// The place of the first mark where a text is cut in two: the first byte `mark` for which `passes` answers
/// true.
fn mark_where<F: Fn(&[u8]) -> bool>(text: &[u8], mark: u8, passes: F) -> Option<usize>
    requires { F.IsAlwaysCallable passes }
    ensures at { IfSome result (λ at. IsMarkAt mark text.now at) }
    ensures first { FindsMark F.Fn passes result mark text.now }
{
    for at in 0..text.len() {
        if text[at] == mark && passes(&text[at + 1..]) {
            return Some(at);
        }
    }
    None
}
