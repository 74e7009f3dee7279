//! The numbers that conditions compare: how they are read, and how they compare.
ghost use Rattle.std.specs.Prelude.{◌≡◌, ◌<◌, ◌≤◌, ◌^◌, pos, neg_ℤ, option_map, IfSome};
ghost use Rattle.std.specs.Option.{ForSome};
ghost use Rattle.std.specs.List.{list_all};
ghost use Rattle.std.specs.Char.{is_digit};
ghost use Rattle.mk_cond.specs.Numbers.{is_numeral, numeral, decimal, hex_or_decimal, numbers_compare, isnt_zero};

use mk_cond_tree::Comparison;
use std::str;

/// The number that a text in a condition is: `0x` and 1 to 15 hexadecimal digits, or `-`, `+` or no sign and
/// 1 to 18 decimal digits.
#[tactic(auto, unfolding(crate::specs::Numbers::hex_or_decimal))]
pub(crate) fn number_of(text: &[u8]) -> Option<i64>
    ensures { result ≡ hex_or_decimal text.now }
{
    if text.starts_with(b"0x".as_slice()) {
        positive(numeral(&text[2..], 16, 15))
    } else {
        decimal(text)
    }
}

/// The number of a condition that is written as a sign, or none, and 1 to 18 decimal digits.
fn decimal(text: &[u8]) -> Option<i64>
    ensures { result ≡ decimal text.now }
{
    match text.split_first() {
        Some((b'-', digits)) => negative(numeral(digits, 10, 18)),
        Some((b'+', digits)) => positive(numeral(digits, 10, 18)),
        _ => positive(numeral(text, 10, 18)),
    }
}

/// A number in a condition, of this size and not negative; `None` if there is no size.
fn positive(size: Option<u64>) -> Option<i64>
    requires { ForSome size (λ n. n < 2 ^ 63) }
    ensures { result ≡ option_map pos size }
{
    match size {
        Some(size) => Some(size as i64),
        None => None,
    }
}

/// A number in a condition, of this size with a `-` before it; `None` if there is no size.
fn negative(size: Option<u64>) -> Option<i64>
    requires { ForSome size (λ n. n < 2 ^ 63) }
    ensures { result ≡ option_map (λ n. neg_ℤ (pos n)) size }
{
    match size {
        Some(size) => Some(-(size as i64)),
        None => None,
    }
}

/// The size of a number in a condition, written with these digits in this radix. There must be at least one
/// digit and at most `most`.
fn numeral(digits: &[u8], radix: u32, most: usize) -> Option<u64>
    requires least { 2 ≤ radix }
    requires greatest { radix ≤ 36 }
    requires few { radix ^ most ≤ 2 ^ 63 }
    ensures value { result ≡ numeral radix most digits.now }
    ensures small { IfSome result (λ n. n < 2 ^ 63) }
{
    if !is_numeral(digits, radix, most) {
        return None;
    }
    match str::from_utf8(digits) {
        Ok(text) => u64::from_str_radix(text, radix).ok(),
        Err(_) => None,
    }
}

/// Whether these bytes are the digits of a number in this radix: at least one of them and at most `most`.
fn is_numeral(digits: &[u8], radix: u32, most: usize) -> bool
    requires least { 2 ≤ radix }
    requires greatest { radix ≤ 36 }
    ensures { result ≡ is_numeral radix most digits.now }
{
    !digits.is_empty() && digits.len() <= most && are_digits(digits, radix)
}

/// Whether each of these bytes is a digit of a number in this radix.
fn are_digits(bytes: &[u8], radix: u32) -> bool
    requires least { 2 ≤ radix }
    requires greatest { radix ≤ 36 }
    ensures { result ≡ list_all (λ c. is_digit c radix) bytes.now }
{
    bytes.iter().all(|byte| char::from(*byte).is_digit(radix))
}

/// Whether this comparison of a condition holds between two numbers.
pub(crate) fn numbers_compare(comparison: Comparison, left: i64, right: i64) -> bool
    ensures { result ≡ numbers_compare comparison left right }
{
    match comparison {
        Comparison::Equal => left == right,
        Comparison::Unequal => left != right,
        Comparison::Less => left < right,
        Comparison::AtMost => left <= right,
        Comparison::Greater => left > right,
        Comparison::AtLeast => left >= right,
    }
}

/// Whether a side of a condition, which may be this number, isn't the number 0.
pub(crate) fn isnt_zero(number: Option<i64>) -> bool
    ensures { result ≡ isnt_zero number }
{
    match number {
        Some(number) => number != 0,
        None => true,
    }
}
