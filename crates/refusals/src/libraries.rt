//! Libraries that other people write, by whose errors one learns what was refused.
ghost use Rattle.std.specs.Prelude.{IsTrue, ◌↔◌};

/// A library whose errors say themselves whether memory ran out.
pub trait Library {
    /// The library's error.
    type Error;

    /// Holds of the errors that say that memory ran out.
    ghost for_memory: { Self.Error → Type 0 };

    /// Whether this error of a library says that memory ran out.
    fn is_for_memory(error: &Self::Error) -> bool
        ensures { IsTrue result ↔ for_memory error.now };
}

/// A library that refuses statements: each of its errors is a refusal.
pub trait Database: Library {}
