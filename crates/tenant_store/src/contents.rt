//! The contents of a tenant's files that were read last, which are kept in memory beside the database.
ghost use Rattle.tenant_store.specs.Contents.{FindsContent, KeepsContents, TakesContent};

use lru::LruCache;
use mk_files::Content;
use std::alloc::{AllocError, Global};

/// The content of the tenant's file of this name, if it is kept in memory. It is then the one that was read
/// last. It fails only if no more can share the content.
pub(crate) fn kept_content(
    kept: &mut LruCache<String, Content>,
    name: &str,
) -> Result<Option<Content>, AllocError>
    ensures content { FindsContent result kept.old.entries name.now }
    ensures kept { KeepsContents kept.old.entries kept.new.entries }
{
    match kept.get(name) {
        Some(content) => Ok(Some(content.share()?)),
        None => Ok(None),
    }
}

/// Keeps the content of a tenant's file of this name beside the database, if there is memory for that. If
/// there are too many contents, the one that was read before all others goes.
pub(crate) fn keep_content(
    alloc: Global,
    kept: &mut LruCache<String, Content>,
    name: &str,
    content: &Content,
)
    ensures { TakesContent kept.old.entries kept.new.entries name.now content.now }
{
    let Ok(name) = String::from_str(alloc, name) else {
        return;
    };
    let Ok(content) = content.share() else {
        return;
    };
    let _first = kept.put(name, content);
}
