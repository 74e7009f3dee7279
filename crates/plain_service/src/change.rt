//! What a request changes of a tenant's world, and the answer that is prepared before.
use mk_files::Content;
use mk_paths::{Name, SearchPath};
use mk_text::Profile;
use ports_http::Reply;

/// What a request changes of the world over which it was answered. Whoever owns that world carries the
/// change out. All memory for it is already taken, except for a file's place among the others.
#[derive(Debug, Drop)]
pub enum Change {
    /// From now on the file of this name has this content, whether or not it was there. If the tenant would
    /// then have more than it may, nothing is changed, and the reply is `full`.
    PutFile(Name, Content),
    /// The file of this name is no longer there.
    RemoveFile(Name),
    /// From now on these trees are searched for ports.
    SetPath(SearchPath),
    /// From now on makefiles are read in this language.
    SetProfile(Profile),
}

/// The answer to a request before anything is changed: its reply, and what is to be changed, if anything
/// is. If a caller takes all memory for the reply's bytes before it carries out the change, and memory runs
/// out, it has changed nothing.
#[derive(Drop)]
pub struct Prepared {
    /// The reply.
    pub reply: Reply,
    /// What is to be changed, if anything is.
    pub change: Option<Change>,
}

impl Prepared {
    ghost use Rattle.std.specs.Prelude.{◌≡◌, None};

    /// The prepared answer of a request that changes nothing: a reply alone.
    pub(crate) fn reply_alone(reply: Reply) -> Prepared
        ensures { result ≡ record { reply = reply; change = None } }
    {
        Prepared {
            reply,
            change: None,
        }
    }
}
