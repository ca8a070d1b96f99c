ghost use Rattle.std.specs.Prelude.{◌≡◌, ◌≤◌, All, IsTrue, Some, bytes_eq, length, map, IfOk};
ghost use Rattle.std.specs.Char.{is_ascii_digit};
ghost use Rattle.std.specs.List.{list_all};
ghost use Rattle.std.specs.Str.Parse.{digits_value};
ghost use Rattle.httparse.specs.Spans.{IsHeaderWithin, header_bytes};
ghost use Rattle.ht_wire.specs.Bodies.{announced, is_length};
ghost use Rattle.ht_wire.specs.Bodies as spec;
ghost use Rattle.ht_wire.specs.Fields.{values_of};
ghost use Rattle.ht_wire.specs.Walking.{IsBare};

use crate::fields::{is_missing, same_text};
use crate::limits::LONGEST_BODY;
use crate::reading::{BAD_REQUEST, CONTENT_TOO_LARGE, NOT_IMPLEMENTED};
use httparse::spans::HeaderSpan;
use std::str;

// The most digits of a length.
const DIGITS: usize = 10;

/// How long the body is that these fields announce, or the status code of the refusal: 501 where it
/// has a transfer coding, 400 where its length is none, 413 where it has too many bytes. `bare` says
/// that they speak of no body.
pub(crate) fn body_length(bytes: &[u8], headers: &[HeaderSpan], bare: bool) -> Result<usize, u16>
    requires within { All (IsHeaderWithin (length bytes.now)) headers.now }
    requires bare { IsTrue bare → IsBare (map (header_bytes bytes.now) headers.now) }
    ensures length { result ≡ announced (map (header_bytes bytes.now) headers.now) }
    ensures most { IfOk result (λ n. n ≤ LONGEST_BODY) }
{
    if bare {
        return Ok(0);
    }
    if !is_missing(bytes, headers, b"transfer-encoding") {
        return Err(NOT_IMPLEMENTED);
    }
    match length_said(bytes, headers, b"content-length") {
        Some(length) => {
            if length <= LONGEST_BODY {
                Ok(length as usize)
            } else {
                Err(CONTENT_TOO_LARGE)
            }
        }
        None => Err(BAD_REQUEST),
    }
}

// What the fields of this name say, of which several must be the same text.
fn length_said(bytes: &[u8], headers: &[HeaderSpan], name: &[u8]) -> Option<u64>
    requires { All (IsHeaderWithin (length bytes.now)) headers.now }
    ensures { result
        ≡ spec.length_said (values_of name.now (map (header_bytes bytes.now) headers.now)) }
{
    for (place, header) in headers.iter().enumerate() {
        if same_text(header.name.of(bytes), name) {
            let value = header.value.of(bytes);
            if all_say(bytes, &headers[place + 1..], name, value) {
                return length_in(value);
            }
            return None;
        }
    }
    Some(0)
}

// Whether each field of this name has this value.
fn all_say(bytes: &[u8], headers: &[HeaderSpan], name: &[u8], value: &[u8]) -> bool
    requires { All (IsHeaderWithin (length bytes.now)) headers.now }
    ensures { result ≡ list_all (bytes_eq value.now)
        (values_of name.now (map (header_bytes bytes.now) headers.now)) }
{
    for header in headers {
        if same_text(header.name.of(bytes), name) && value != header.value.of(bytes) {
            return false;
        }
    }
    true
}

fn length_in(value: &[u8]) -> Option<u64>
    ensures { result ≡ spec.length_in value.now }
{
    if value.is_empty() || value.len() > DIGITS || !are_digits(value) {
        return None;
    }
    match str::from_utf8(value) {
        Ok(digits) => value_of(digits),
        Err(_) => None,
    }
}

fn value_of(digits: &str) -> Option<u64>
    requires { IsTrue (is_length digits.now) }
    ensures { result ≡ Some (digits_value 10 digits.now) }
{
    digits.parse::<u64>().ok()
}

fn are_digits(bytes: &[u8]) -> bool
    ensures { result ≡ list_all is_ascii_digit bytes.now }
{
    bytes.iter().all(|byte| byte.is_ascii_digit())
}
