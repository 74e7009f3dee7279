//! The path and the query of a request's target.
ghost use Rattle.std.specs.Prelude.{◌≡◌};
ghost use Rattle.plain_service.specs.Target.{local_part, path_of_target, query_of};

/// The target of a request without scheme and host.
pub fn without_host(target: &str) -> &str
    ensures { result.now ≡ local_part target.now }
{
    let Some(rest) = target.strip_prefix("http://") else {
        return target;
    };
    match rest.find('/') {
        Some(at) => &rest[at..],
        None => "/",
    }
}

/// The path of a request's target, which ends at the first question mark, and the query after that mark.
/// Without a mark the query is empty.
pub fn path_and_query(target: &str) -> (&str, &str)
    ensures path { result.0.now ≡ path_of_target target.now }
    ensures query { result.1.now ≡ query_of target.now }
{
    let written = without_host(target);
    match written.split_once('?') {
        Some(parts) => parts,
        None => (written, ""),
    }
}
