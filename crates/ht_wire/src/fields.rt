ghost use Rattle.std.specs.Prelude.{◌≡◌, [], All, IsTrue, length, map, option_map, codes};
ghost use Rattle.std.specs.List.{list_any};
ghost use Rattle.std.specs.Str.{str_eq_ignore_ascii_case};
ghost use Rattle.httparse.specs.Spans.{IsHeaderWithin, header_bytes};
ghost use Rattle.ht_wire.specs.Fields.{values_of, is_nothing, only, is_close};
ghost use Rattle.ht_wire.specs.Walking.{IsBare, only_after};
ghost use Rattle.ht_wire.specs.Walking as spec;

use httparse::spans::HeaderSpan;

/// What the fields of a head say, as one walk over them finds it.
#[derive(Clone, Copy)]
pub(crate) struct Said<'b> {
    /// The value of the one field `x-person`.
    pub person: Option<&'b [u8]>,
    /// Whether a field asks that the connection close.
    pub close: bool,
    /// Whether no field speaks of a body.
    pub bare: bool,
}

pub(crate) fn said_in<'b>(bytes: &'b [u8], headers: &[HeaderSpan]) -> Said<'b>
    requires { All (IsHeaderWithin (length bytes.now)) headers.now }
    ensures person { option_map (λ v. v.now) result.person
        ≡ only (values_of (codes "x-person") (map (header_bytes bytes.now) headers.now)) }
    ensures close { result.close ≡ list_any is_close (map (header_bytes bytes.now) headers.now) }
    ensures bare { IsTrue result.bare → IsBare (map (header_bytes bytes.now) headers.now) }
{
    let mut first = None;
    let mut several = false;
    let mut close = false;
    let mut bare = true;
    for header in headers {
        let name = header.name.of(bytes);
        let value = header.value.of(bytes);
        let is_person = same_text(name, b"x-person");
        several = several | (is_person & first.is_some());
        first = kept(first, is_person, value);
        close = close | asks_close(name, value);
        bare = bare & !is_of_body(name);
    }
    Said {
        person: alone(first, several),
        close,
        bare,
    }
}

// The first value of a person: this one, where it is one and none came before.
fn kept<'b>(first: Option<&'b [u8]>, is_person: bool, value: &'b [u8]) -> Option<&'b [u8]>
    ensures { option_map (λ v. v.now) result
        ≡ spec.kept (option_map (λ v. v.now) first.entry) is_person value.now }
{
    if is_person && first.is_none() {
        return Some(value);
    }
    first
}

fn alone(first: Option<&[u8]>, several: bool) -> Option<&[u8]>
    ensures { option_map (λ v. v.now) result
        ≡ only_after several (option_map (λ v. v.now) first.entry) [] }
{
    if several {
        return None;
    }
    first
}

fn asks_close(name: &[u8], value: &[u8]) -> bool
    ensures { result ≡ is_close (name.now, value.now) }
{
    same_text(name, b"connection") && same_text(value, b"close")
}

fn is_of_body(name: &[u8]) -> bool
    ensures { result ≡ spec.is_of_body name.now }
{
    same_text(name, b"content-length") || same_text(name, b"transfer-encoding")
}

/// Whether no field has this name.
pub(crate) fn is_missing(bytes: &[u8], headers: &[HeaderSpan], name: &[u8]) -> bool
    requires { All (IsHeaderWithin (length bytes.now)) headers.now }
    ensures { result ≡ is_nothing (values_of name.now (map (header_bytes bytes.now) headers.now)) }
{
    for header in headers {
        if same_text(header.name.of(bytes), name) {
            return false;
        }
    }
    true
}

/// Whether two texts are the same, ASCII case aside. Most names come in the case in which they are
/// looked for.
pub(crate) fn same_text(a: &[u8], b: &[u8]) -> bool
    ensures { result ≡ str_eq_ignore_ascii_case a.now b.now }
{
    a == b || a.eq_ignore_ascii_case(b)
}
