//! The brackets of a pattern: each matches one character, by its members.
ghost use Rattle.std.specs.Prelude.{◌≡◌};
ghost use Rattle.mk_glob.specs.Items.{is_within};
ghost use Rattle.mk_glob.specs.Brackets.{EndsRange, TestsMembers, TestsBracket};

use crate::pattern_signs::first_sign;

/// Whether `c` is in a range of a pattern's bracket: one of the characters from `low` up to `high`.
fn is_within(low: char, high: char, c: char) -> bool
    ensures { result ≡ is_within low high c }
{
    low <= c && c <= high
}

/// The last character of the range of a bracket that begins with `low`, and what follows the range. `rest` is
/// what follows `low`. If no `-` follows `low`, or if that `-` is the last one inside, `low` is a range of
/// its own.
fn range_end(low: char, rest: &str) -> (char, &str)
    ensures { EndsRange low rest.now result.0 result.1.now }
{
    let Some((dash, behind)) = first_sign(rest) else {
        return (low, rest);
    };
    if !dash.is_bare('-') {
        return (low, rest);
    }
    let Some((high, further)) = first_sign(behind) else {
        return (low, rest);
    };
    if high.is_bare(']') {
        return (low, rest);
    }
    (high.character(), further)
}

/// Whether `c` is among the members of the bracket that `body` begins with, and what follows the `]` that
/// closes them. If none closes them, it is `None`. The first sign of `body` never closes them.
fn among_members(body: &str, c: char) -> Option<(bool, &str)>
    ensures { TestsMembers body.now c result }
{
    let (mut low, mut rest) = first_sign(body)?;
    let mut found = false;
    loop {
        let (high, behind) = range_end(low.character(), rest);
        found |= is_within(low.character(), high, c);
        let (sign, further) = first_sign(behind)?;
        if sign.is_bare(']') {
            return Some((found, further));
        }
        low = sign;
        rest = further;
    }
}

/// Whether a bracket of a pattern allows `c`, and what follows the bracket. `body` is what follows its `[`.
/// If the bracket isn't closed, it is `None`. The time is linear in the length of what is read.
pub(crate) fn bracket_allows(body: &str, c: char) -> Option<(bool, &str)>
    ensures { TestsBracket body.now c result }
{
    let (sign, members) = first_sign(body)?;
    if sign.is_bare('!') {
        let (found, behind) = among_members(members, c)?;
        return Some((!found, behind));
    }
    among_members(body, c)
}
