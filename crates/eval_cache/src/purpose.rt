//! The purpose that a cache is used for, and what is dropped first by that.
ghost use Rattle.std.specs.Prelude.{◌≡◌, true, None};
ghost use Rattle.std.specs.Map.{lookup_entry};
ghost use Rattle.eval_cache.specs.CacheOrder as spec;
ghost use Rattle.eval_cache.specs.CacheOrder.{PutsNew};

use lru::LruCache;
use std::hash::Hash;

/// What a cache is used for. It decides where something new stands if the cache is full. What stands last there is
/// dropped first. What was kept and is used again goes to the front, whatever the purpose.
#[derive(Clone, Copy, Debug, PartialEq, Eq)]
pub enum Purpose {
    /// Somebody asks for something by name. What is new stands first.
    Asking,
    /// A walk goes through all paths of a tenant. If the cache is full, what is new stands last. What is kept next
    /// pushes it out and nothing else, unless it was used before. So if there are more paths than places, the next
    /// walk finds what this one kept until the cache was full.
    Walking,
}

/// Puts a new value into a table of a cache under a key that isn't there yet. If a walk fills the table with
/// it, it goes last, else first. If there is no memory for that, nothing changes.
pub(crate) fn put_new<K: Clone + Eq + Hash, V: Drop>(
    table: &mut LruCache<K, V>,
    purpose: Purpose,
    key: K,
    value: V,
)
    requires new { lookup_entry (K.eq key) table.old.entries ≡ None }
    requires clones { (same : K) → K.is_clone key same → K.eq same key ≡ true }
    ensures { PutsNew purpose (key, value) table.old table.new }
{
    if !goes_last(table, purpose) {
        let _first = table.put(key, value);
        return;
    }
    let Ok(same) = key.clone() else {
        return;
    };
    let Ok(_old) = table.put(key, value) else {
        return;
    };
    let _last = table.demote(&same);
}

/// Whether something new goes last in a table of a cache, by the cache's purpose: it comes on a walk, and
/// fills the table.
fn goes_last<K: Eq + Hash, V>(table: &LruCache<K, V>, purpose: Purpose) -> bool
    ensures { result ≡ spec.goes_last purpose table.now.cap table.now.entries }
{
    match purpose {
        Purpose::Asking => false,
        Purpose::Walking => table.len() + 1 >= table.cap().get(),
    }
}
