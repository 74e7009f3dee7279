//! The kinds of dependencies about which a question asks.
ghost use Rattle.std.specs.Prelude.{◌≡◌};
ghost use Rattle.ports_query.specs.Kinds as kinds;

use port_rules::DependKind;

/// The kinds of dependencies about which a question asks.
#[derive(Clone, Copy, Debug, PartialEq, Eq)]
pub enum Kinds {
    /// Those of each kind.
    All,
    /// Those of one kind.
    One(DependKind),
}

impl Kinds {
    /// The kinds of dependencies that a word names: `build`, `lib`, `run` and `test` name one, `all` and the
    /// empty word name each. `None` for any other word.
    pub fn read(word: &str) -> Option<Kinds>
        ensures { result ≡ kinds.kinds_of word.now }
    {
        match word {
            "" | "all" => Some(Kinds::All),
            "build" => Some(Kinds::One(DependKind::Build)),
            "lib" => Some(Kinds::One(DependKind::Lib)),
            "run" => Some(Kinds::One(DependKind::Run)),
            "test" => Some(Kinds::One(DependKind::Test)),
            _ => None,
        }
    }

    /// Whether a kind of dependencies is one of those that are asked for.
    pub(crate) fn have(self, kind: DependKind) -> bool
        ensures { result ≡ kinds.has_kind self kind }
    {
        match self {
            Kinds::All => true,
            Kinds::One(wanted) => same_kind(wanted, kind),
        }
    }
}

/// Whether two kinds of dependencies are the same.
fn same_kind(wanted: DependKind, kind: DependKind) -> bool
    ensures { result ≡ kinds.same_kind wanted kind }
{
    matches!(
        (wanted, kind),
        (DependKind::Build, DependKind::Build)
            | (DependKind::Lib, DependKind::Lib)
            | (DependKind::Run, DependKind::Run)
            | (DependKind::Test, DependKind::Test)
    )
}
