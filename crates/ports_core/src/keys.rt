//! The keys of the tenants, and the sizes that a service begins with.
ghost use Rattle.std.specs.Prelude.{◌≡◌, ◌<◌, IfSome, bytes_eq, length, option_map, position};
ghost use Rattle.std.specs.String.{string_bytes};
ghost use Rattle.std.specs.List.{list_all};
ghost use Rattle.ports_core.specs.Keys.{is_size, is_count, is_key, is_key_byte, are_apart, are_keys, key_texts, tenant_of};

/// The most tenants, and the most bytes of a key.
const MOST: usize = 64;

/// The greatest size of a cache, in parses or in evaluations.
const GREATEST_SIZE: u32 = 65_536;

/// What a service begins with: the tenants' keys, in the order of the tenants' numbers, and how many
/// parsed files the cache may hold, and the evaluations of how many keys.
///
/// It is fit with 1 to 64 keys, none of them twice, and with sizes from 1 to 65,536. Each key has 1 to 64
/// bytes of printable ASCII without blanks.
#[derive(Debug, Drop)]
pub struct Config {
    pub keys: Vec<String>,
    pub parses: u32,
    pub evals: u32,
}

impl Config {
    ghost use Rattle.ports_core.specs.Keys.{is_fit};

    /// Whether the keys and the sizes are fit, so that a service can begin with this config.
    pub fn is_fit(&self) -> bool
        ensures { result ≡ is_fit self.now }
    {
        is_size(self.parses) && is_size(self.evals) && are_keys(&self.keys)
    }
}

/// Whether the cache of a config may have this size: 1 to 65,536.
fn is_size(size: u32) -> bool
    ensures { result ≡ is_size size }
{
    1 <= size && size <= GREATEST_SIZE
}

/// Whether there may be so many keys, or a key may have so many bytes: 1 to 64.
fn is_count(count: usize) -> bool
    ensures { result ≡ is_count count }
{
    1 <= count && count <= MOST
}

/// Whether the tenants can have these keys: there are 1 to 64, each can be a key, and none is there twice.
#[tactic(auto, using(crate::proofs::KeyLemmas::texts_of_keys))]
fn are_keys(keys: &[String]) -> bool
    ensures { result ≡ are_keys (key_texts keys.now) }
{
    is_count(keys.len()) && are_all_keys(keys) && are_apart(keys)
}

/// Whether each of these texts can be the key of a tenant.
fn are_all_keys(keys: &[String]) -> bool
    ensures { result ≡ list_all (λ key. is_key (string_bytes key)) keys.now }
{
    keys.iter().all(is_key)
}

/// Whether a text can be the key of a tenant.
fn is_key(key: &String) -> bool
    ensures { result ≡ is_key (string_bytes key.now) }
{
    is_count(key.len()) && is_plain(key.as_str())
}

/// Whether each byte of a key is printable ASCII that isn't a blank.
fn is_plain(text: &str) -> bool
    ensures { result ≡ list_all is_key_byte text.now }
{
    text.bytes().all(|byte| 33 <= byte && byte <= 126)
}

/// Whether no key of a tenant is there twice.
fn are_apart(keys: &[String]) -> bool
    ensures { result ≡ are_apart (key_texts keys.now) }
{
    for (i, key) in keys.iter().enumerate() {
        let others = &keys[i + 1..];
        if others.contains(key) {
            return false;
        }
    }
    true
}

/// The number of the tenant whose key a request has. `None` if there is no key, or if it is no tenant's.
pub(crate) fn place_of(keys: &[String], key: &Option<Vec<u8>>) -> Option<usize>
    ensures place { result ≡ tenant_of (key_texts keys.now) (option_map (λ k. k.items) key.now) }
    ensures within { IfSome result (λ place. place < length keys.now) }
{
    match key {
        Some(key) => place_among(keys, key.as_slice()),
        None => None,
    }
}

/// The place of the first tenant's key with these bytes.
fn place_among(keys: &[String], key: &[u8]) -> Option<usize>
    ensures place { result ≡ position (λ known. bytes_eq (string_bytes known) key.now) keys.now }
    ensures within { IfSome result (λ place. place < length keys.now) }
{
    keys.iter().position(|known| known.as_bytes() == key)
}
