//! HTTP/1.0 and 1.1 as a server of small requests speaks it: requests cut from the bytes of a
//! connection, and the bytes of replies (RFC 9110, RFC 9112).
//!
//! Bodies have a Content-Length; transfer codings, trailers and `Expect` aren't read.
#![tactic(auto)]

mod announced;
mod conn;
mod fault;
mod field_limit;
mod fields;
mod first;
pub mod laws;
mod method;
mod reply;
mod request;
mod stream;
mod write;

pub use conn::Conn;
pub use fault::HeadFault;
pub use http::StatusCode;
pub use method::Method;
pub use reply::{Body, Content, Reply};
pub use request::{Request, TakeError};
pub use stream::{Decoded, StreamEnd, decode};
pub use write::{write_fixed, write_reply};
