use ht_base::{Bytes, Name};
use http::Method;

/// A request that was read whole.
#[derive(Drop)]
pub struct Request {
    pub method: Method,
    pub target: Bytes,
    /// Who sends it: the name in the one field `x-person`.
    pub person: Option<Name>,
    /// Whether it is the last of its connection: of HTTP/1.0, or with `connection: close`.
    pub last: bool,
    pub body: Bytes,
}
