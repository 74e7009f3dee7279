//! Numbers as scripts write them.
ghost use Rattle.std.specs.Prelude.{◌≡◌};
ghost use Rattle.portsd_text.specs.Numerals.{number_of};

/// The number that a text in a script writes: 1 to 20 decimal digits, within 64 bits. Leading zeros are
/// allowed. `None` for any other text, also for the empty one.
pub fn read_number(text: &str) -> Option<u64>
    ensures { result ≡ number_of text.now }
{
    if text.len() > 20 || !text.as_bytes().iter().all(|byte| byte.is_ascii_digit()) {
        return None;
    }
    text.parse::<u64>().ok()
}
