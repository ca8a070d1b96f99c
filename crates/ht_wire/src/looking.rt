ghost use Rattle.std.specs.Prelude.{◌≡◌, ◌≤◌, ◌↔◌, IsTrue, length};
ghost use Rattle.ht_wire.specs.Heads.{IsEnd};
ghost use Rattle.ht_wire.specs.Looking.{Sees};

use crate::limits::{LONGEST_HEAD, MOST_FIELDS};
use httparse::spans::{HeaderSpan, RequestSpans, parse_request};
use httparse::{Error, Status};

/// What stands at the front of the bytes that are there so far.
#[derive(Clone, Copy)]
pub(crate) enum Sight {
    Head(RequestSpans),
    /// More fields than a head has, or as many bytes as one has at most and no whole head.
    TooLong,
    /// No bytes can follow that make a head.
    NoHead,
    /// Only CR and LF.
    Blank,
    /// The beginning of a head.
    Partial,
}

pub(crate) fn look(bytes: &[u8], headers: &mut [HeaderSpan; MOST_FIELDS]) -> Sight
    requires { length bytes.now ≤ LONGEST_HEAD }
    ensures { Sees bytes.now headers.new result }
{
    if is_end(bytes) {
        return Sight::Blank;
    }
    match parse_request(bytes, headers) {
        Ok(Status::Complete(head)) => Sight::Head(head),
        Ok(Status::Partial) => {
            if bytes.len() == LONGEST_HEAD {
                return Sight::TooLong;
            }
            Sight::Partial
        }
        Err(Error::TooManyHeaders) => Sight::TooLong,
        Err(_) => Sight::NoHead,
    }
}

fn is_end(bytes: &[u8]) -> bool
    ensures { IsTrue result ↔ IsEnd bytes.now }
{
    bytes.len() < LONGEST_HEAD && bytes.iter().all(|b| *b == b'\r' || *b == b'\n')
}
