//! The depth of a question about dependencies: how far they are followed.
ghost use Rattle.std.specs.Prelude.{◌≡◌};
ghost use Rattle.plain_service.specs.IndexRoutes.{depth_of};

/// The depth of a question about dependencies: how far they are followed.
#[derive(Clone, Copy, Debug, PartialEq, Eq)]
pub enum Depth {
    /// A port's own dependencies, or those that lead to it.
    Direct,
    /// All ports that are reached, or that reach it.
    All,
}

impl Depth {
    /// The depth of a question about dependencies that a text names: `1` or `all`. An empty text is `1`.
    /// `None` for any other text.
    pub fn read(text: &str) -> Option<Depth>
        ensures { result ≡ depth_of text.now }
    {
        match text {
            "" | "1" => Some(Depth::Direct),
            "all" => Some(Depth::All),
            _ => None,
        }
    }
}
