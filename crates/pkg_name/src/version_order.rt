//! The order of versions of packages, which takes no memory: each text is cut where its keys end, and each
//! byte of it is read a fixed number of times.
ghost use Rattle.std.specs.Prelude.{◌≡◌, ◌==◌, ◌<◌, ◌≤◌, ◌-◌, false, IsTrue, length, drop, slice_index, IfSome, []};
ghost use Rattle.std.specs.List.{list_all, take_while, prefix_len, position_or_len};
ghost use Rattle.std.specs.Char.{is_ascii_digit, is_ascii_alphabetic};
ghost use Rattle.std.specs.Cmp.Lexicographic.{slice_cmp};
ghost use Rattle.pkg_name.specs.Version.{has_short_numbers};
ghost use Rattle.pkg_name.specs.Order.{number_written, past_while, ended_by, part_key, part_keys, part_cmp, letters_rank};
ghost use Rattle.pkg_name.specs.Order.{letters_cmp, version_cmp, CutsFirstPart};

use std::cmp::Ordering;
use std::str;

/// The text of a version whose end, a letter and a number, is taken off.
#[derive(Clone, Copy)]
struct Ended<'a> {
    before: &'a [u8],
    number: Option<u64>,
}

/// The keys by which a part of a version is ordered.
#[derive(Clone, Copy)]
struct PartKeys<'a> {
    number: Option<u64>,
    letters: &'a [u8],
    second: Option<u64>,
    rest: &'a [u8],
}

/// How two versions of packages compare, by their texts.
pub(crate) fn compare_versions(version: &[u8], other: &[u8]) -> Ordering
    requires short { IsTrue (has_short_numbers version.now) }
    requires other_short { IsTrue (has_short_numbers other.now) }
    ensures { result ≡ version_cmp version.now other.now }
{
    let (epoch, other_epoch) = (take_ending(version, b'v'), take_ending(other, b'v'));
    let revision = take_ending(epoch.before, b'p');
    let other_revision = take_ending(other_epoch.before, b'p');
    epoch
        .number
        .cmp(&other_epoch.number)
        .then(compare_parts(revision.before, other_revision.before))
        .then(revision.number.cmp(&other_revision.number))
        .then(version.cmp(other))
}

/// The text of a version with its end taken off, the letter and a number.
fn take_ending(text: &[u8], letter: u8) -> Ended<'_>
    requires short { IsTrue (has_short_numbers text.now) }
    requires no_digit { is_ascii_digit letter ≡ false }
    ensures before { result.before.now ≡ (ended_by letter text.now).before }
    ensures number { result.number ≡ (ended_by letter text.now).number }
    ensures short { IsTrue (has_short_numbers result.before.now) }
{
    let (front, digits) = text.split_at(final_digits(text));
    let Some((last, before)) = front.split_last() else {
        return Ended {
            before: text,
            number: None,
        };
    };
    if *last == letter && !digits.is_empty() {
        Ended {
            before,
            number: number(digits),
        }
    } else {
        Ended {
            before: text,
            number: None,
        }
    }
}

/// The index at which the digits begin that end the text of a version.
fn final_digits(text: &[u8]) -> usize
    ensures bound { result ≤ length text.now }
    ensures digits { IsTrue (list_all is_ascii_digit (drop result text.now)) }
    ensures before { 0 < result → is_ascii_digit (slice_index text.now (result - 1)) ≡ false }
{
    let mut start = text.len();
    while start > 0 && text[start - 1].is_ascii_digit() {
        start -= 1;
    }
    start
}

/// The number that at most 18 digits of a key write, by which versions are put in order; `None` if there are no digits.
fn number(digits: &[u8]) -> Option<u64>
    requires digits { IsTrue (list_all is_ascii_digit digits.now) }
    requires few { length digits.now ≤ 18 }
    ensures { result ≡ number_written digits.now }
{
    let Ok(digits) = str::from_utf8(digits) else {
        return None;
    };
    digits.parse().ok()
}

/// How two versions compare by the parts between their dots.
fn compare_parts(text: &[u8], other: &[u8]) -> Ordering
    requires short { IsTrue (has_short_numbers text.now) }
    requires other_short { IsTrue (has_short_numbers other.now) }
    ensures { result ≡ slice_cmp part_cmp (part_keys text.now) (part_keys other.now) }
{
    let (mut text, mut other) = (text, other);
    loop {
        let (part, behind) = first_part(text);
        let (other_part, other_after) = first_part(other);
        let ordering = compare_part(part, other_part);
        if ordering != Ordering::Equal {
            return ordering;
        }
        match (behind, other_after) {
            (None, None) => return Ordering::Equal,
            (None, Some(_)) => return Ordering::Less,
            (Some(_), None) => return Ordering::Greater,
            (Some(more), Some(other_more)) => {
                text = more;
                other = other_more;
            }
        }
    }
}

/// The first part of a version's text, and what follows its dot, if there is one.
fn first_part(text: &[u8]) -> (&[u8], Option<&[u8]>)
    requires short { IsTrue (has_short_numbers text.now) }
    ensures parts { CutsFirstPart result text.now }
    ensures short { IsTrue (has_short_numbers result.0.now) }
    ensures after_short { IfSome result.1 (λ behind. IsTrue (has_short_numbers behind.now)) }
    ensures shorter { IfSome result.1 (λ behind. length behind.now < length text.now) }
{
    let end = dot_or_end(text);
    if end == text.len() {
        (text, None)
    } else {
        (&text[..end], Some(&text[end + 1..]))
    }
}

/// The index of the first dot in a version's text, or of the text's end if there is no dot.
fn dot_or_end(text: &[u8]) -> usize
    ensures value { result ≡ position_or_len (λ byte. byte == 46) text.now }
    ensures bound { result ≤ length text.now }
{
    text.iter().take_while(|byte| **byte != b'.').count()
}

/// How two parts of versions compare by their keys.
fn compare_part(part: &[u8], other: &[u8]) -> Ordering
    requires short { IsTrue (has_short_numbers part.now) }
    requires other_short { IsTrue (has_short_numbers other.now) }
    ensures { result ≡ part_cmp (part_key part.now) (part_key other.now) }
{
    let (part, other) = (keys_of_part(part), keys_of_part(other));
    part.number
        .cmp(&other.number)
        .then(compare_letters(part.letters, other.letters))
        .then(part.second.cmp(&other.second))
        .then(part.rest.cmp(other.rest))
}

/// The keys by which a part of a version is ordered.
fn keys_of_part(part: &[u8]) -> PartKeys<'_>
    requires short { IsTrue (has_short_numbers part.now) }
    ensures number { result.number ≡ (part_key part.now).number }
    ensures letters { result.letters.now ≡ (part_key part.now).letters }
    ensures second { result.second ≡ (part_key part.now).second }
    ensures rest { result.rest.now ≡ (part_key part.now).rest }
{
    let (number, after_number) = take_number(part);
    let (letters, after_letters) = take_letters(after_number);
    let (second, rest) = take_number(after_letters);
    PartKeys {
        number,
        letters,
        second,
        rest,
    }
}

/// The number that a part of a version begins with, if any, and what follows it.
fn take_number(text: &[u8]) -> (Option<u64>, &[u8])
    requires short { IsTrue (has_short_numbers text.now) }
    ensures number { result.0 ≡ number_written (take_while is_ascii_digit text.now) }
    ensures behind { result.1.now ≡ past_while is_ascii_digit text.now }
    ensures short { IsTrue (has_short_numbers result.1.now) }
{
    let (digits, behind) = text.split_at(digits_at_front(text));
    (number(digits), behind)
}

/// The ASCII letters that a part of a version begins with, and what follows them.
fn take_letters(text: &[u8]) -> (&[u8], &[u8])
    requires short { IsTrue (has_short_numbers text.now) }
    ensures letters { result.0.now ≡ take_while is_ascii_alphabetic text.now }
    ensures behind { result.1.now ≡ past_while is_ascii_alphabetic text.now }
    ensures short { IsTrue (has_short_numbers result.1.now) }
{
    text.split_at(letters_at_front(text))
}

/// How many digits a part of a version begins with.
fn digits_at_front(text: &[u8]) -> usize
    ensures value { result ≡ prefix_len is_ascii_digit text.now }
    ensures bound { result ≤ length text.now }
{
    text.iter().take_while(|byte| byte.is_ascii_digit()).count()
}

/// How many ASCII letters a part of a version begins with.
fn letters_at_front(text: &[u8]) -> usize
    ensures value { result ≡ prefix_len is_ascii_alphabetic text.now }
    ensures bound { result ≤ length text.now }
{
    text.iter()
        .take_while(|byte| byte.is_ascii_alphabetic())
        .count()
}

/// How the letters in two parts of versions compare.
fn compare_letters(letters: &[u8], other: &[u8]) -> Ordering
    ensures { result ≡ letters_cmp letters.now other.now }
{
    rank_of_letters(letters)
        .cmp(&rank_of_letters(other))
        .then(letters.cmp(other))
}

/// The rank of the letters in a part of a version: those that come before a release, then none, then others.
fn rank_of_letters(letters: &[u8]) -> u8
    ensures { result ≡ letters_rank letters.now }
{
    match letters {
        b"alpha" => 0,
        b"beta" => 1,
        b"pre" => 2,
        b"rc" => 3,
        b"" => 4,
        _ => 5,
    }
}
