//! The methods of HTTP that are served.
ghost use Rattle.std.specs.Prelude.{◌≡◌, Result, Ok, Err};
ghost use Rattle.ports_http.specs.Heads.{method_text, method_named};

use crate::fault::HeadFault;

/// A method of HTTP (RFC 9110, section 9). No other is served.
#[derive(Clone, Copy, Debug, PartialEq, Eq)]
pub enum Method {
    Get,
    Put,
    Delete,
}

impl Method {
    /// The word of the HTTP method, as it is written in a head.
    pub fn as_str(self) -> &'static str
        ensures { result.now ≡ method_text self }
    {
        match self {
            Method::Get => "GET",
            Method::Put => "PUT",
            Method::Delete => "DELETE",
        }
    }
}

/// The HTTP method of this word, in capitals. Any other word is `HeadFault::UnknownMethod`.
#[tactic(auto, unfolding(crate::specs::Heads::method_named))]
pub(crate) fn method_of(word: &[u8]) -> Result<Method, HeadFault>
    ensures { result ≡ method_named word.now }
{
    if word == b"GET".as_slice() {
        Ok(Method::Get)
    } else if word == b"PUT".as_slice() {
        Ok(Method::Put)
    } else if word == b"DELETE".as_slice() {
        Ok(Method::Delete)
    } else {
        Err(HeadFault::UnknownMethod)
    }
}
