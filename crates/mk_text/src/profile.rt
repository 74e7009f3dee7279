//! The profiles of the make language, and their numbers.
ghost use Rattle.std.specs.Prelude.{◌≡◌};
ghost use Rattle.mk_text.specs.Profiles.{profile_number, numbered_profile};

/// The make language that a makefile is read in. Which profiles there are, is this project's choice.
#[derive(Clone, Copy, Debug, PartialEq, Eq, Hash)]
pub enum Profile {
    /// The language without suffix replacement.
    One,
    /// The language in which a reference may have the modifier `old=new` too (make(1), "VARIABLES").
    Two,
}

impl Profile {
    /// The number of a profile of the make language, 1 or 2.
    pub fn number(self) -> u32
        ensures { result ≡ profile_number self }
    {
        match self {
            Profile::One => 1,
            Profile::Two => 2,
        }
    }

    /// The profile of the make language with this number. Each number below 2 gives the first, and each other
    /// the second.
    pub fn with_number(number: u32) -> Profile
        ensures { result ≡ numbered_profile number }
    {
        if number >= 2 {
            Profile::Two
        } else {
            Profile::One
        }
    }
}
