//! The wire: bytes to requests, and replies to bytes (HTTP/1.1, RFC 9112).
#![tactic(auto)]

mod bodies;
mod buffer;
mod fields;
mod limits;
mod looking;
mod reading;
mod replying;
mod request;

pub use buffer::Buffer;
pub use reading::{Next, next_request};
pub use replying::write_reply;
pub use request::Request;
