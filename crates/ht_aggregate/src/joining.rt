//! Texts joined to one.
ghost use Rattle.std.specs.Prelude.{IfOk, string_bytes};
ghost use Rattle.ht_aggregate.specs.Given.{texts};
ghost use Rattle.ht_aggregate.specs.Joining as spec;
ghost use Rattle.ht_aggregate.specs.Joining.{BeginsFar, IsCut};

use crate::given::text_in;
use ht_base::{LONGEST_TEXT, Memory, Txt, Value};
use std::alloc::Global;

/// The texts, with the delimiter between each two, cut to whole characters of at most [`LONGEST_TEXT`] bytes.
pub(crate) fn joined(alloc: Global, delimiter: &str, values: &[Value]) -> Result<Txt, Memory>
    ensures { IfOk result (IsCut LONGEST_TEXT (spec.joined delimiter.now (texts values.now))) }
{
    let mut text = beginning(alloc, delimiter, values)?;
    let end = text.as_str().floor_char_boundary(LONGEST_TEXT);
    text.truncate(end);
    Ok(Txt::from(text))
}

// The texts with the delimiter between each two; no more of them than one that goes beyond the most
// bytes.
fn beginning(alloc: Global, delimiter: &str, values: &[Value]) -> Result<String, Memory>
    ensures { IfOk result (λ t.
        BeginsFar LONGEST_TEXT (spec.joined delimiter.now (texts values.now)) (string_bytes t)) }
{
    let mut joined = String::new(alloc);
    let mut between = "";
    for value in values {
        if joined.len() > LONGEST_TEXT {
            return Ok(joined);
        }
        if let Some(text) = text_in(value) {
            joined.push_str(between)?;
            joined.push_str(text)?;
            between = delimiter;
        }
    }
    Ok(joined)
}
