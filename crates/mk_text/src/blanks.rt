//! The blanks in lines of makefiles: spaces and tabs.
ghost use Rattle.std.specs.Prelude.{◌≡◌};
ghost use Rattle.mk_text.specs.Blanks.{is_blank, skip_blanks, trim_blanks};

const BLANKS: [char; 2] = [' ', '\t'];

/// Whether a byte of a makefile's line is a blank: a space or a tab.
pub fn is_blank(byte: u8) -> bool
    ensures { result ≡ is_blank byte }
{
    byte == b' ' || byte == b'\t'
}

/// The text of a makefile's line without the blanks (spaces and tabs) that it begins with, as a slice of it.
/// Later blanks stay.
pub fn skip_blanks(text: &str) -> &str
    ensures { result.now ≡ skip_blanks text.now }
{
    text.trim_start_matches(BLANKS)
}

/// The text of a makefile's line without the blanks (spaces and tabs) at both its ends, as a slice of it.
/// Line feeds and carriage returns are not blanks.
pub fn trim_blanks(text: &str) -> &str
    ensures { result.now ≡ trim_blanks text.now }
{
    skip_blanks(text).trim_end_matches(BLANKS)
}
