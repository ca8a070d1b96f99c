ghost use Rattle.std.specs.Prelude.{◌≡◌, length, option_map};
ghost use Rattle.ht_codec.specs.Fields.{text_length, text, some_text, opening_length, opening_text};
ghost use Rattle.ht_codec.specs.Reading.{Gives, Shows};
ghost use Rattle.ht_codec.specs.Texts.{text_of};

use crate::CodecRefusal;
use crate::numbers::{read_u16, read_u32};
use crate::reader::Reader;
use ht_base::{Bytes, LONGEST_OFFICE_TEXT, LONGEST_TEXT, Txt};
use std::alloc::Global;

#[tactic(auto, unfolding(crate::specs::Fields::text_length))]
fn read_text_length(r: &mut Reader<'_>) -> Result<u16, CodecRefusal>
    ensures { Gives text_length.read r.old r.new result }
{
    let at = r.place();
    let length = read_u16(r)?;
    if usize::from(length) > LONGEST_TEXT {
        return Err(CodecRefusal::Range(at));
    }
    Ok(length)
}

/// The bytes as a text, if they are UTF-8.
fn text_of(bytes: &[u8]) -> Option<&str>
    ensures { option_map (λ s. s.now) result ≡ text_of bytes.now }
{
    match str::from_utf8(bytes) {
        Ok(text) => Some(text),
        Err(_) => None,
    }
}

#[tactic(auto, unfolding(crate::specs::Fields::text))]
pub(crate) fn read_text(r: &mut Reader<'_>, alloc: Global) -> Result<Txt, CodecRefusal>
    ensures { Gives text.read r.old r.new result }
{
    let at = r.place();
    let length = usize::from(read_text_length(r)?);
    if r.left.len() < length {
        return Err(CodecRefusal::Short(r.whole));
    }
    let (front, rest) = r.left.split_at(length);
    match text_of(front) {
        Some(text) => {
            r.left = rest;
            Ok(Txt::of(alloc, text)?)
        }
        None => Err(CodecRefusal::Range(at)),
    }
}

#[tactic(auto, unfolding(crate::specs::Fields::some_text))]
pub(crate) fn read_some_text(r: &mut Reader<'_>, alloc: Global) -> Result<Txt, CodecRefusal>
    ensures { Gives some_text.read r.old r.new result }
{
    let at = r.place();
    let text = read_text(r, alloc)?;
    if text.as_str().is_empty() {
        return Err(CodecRefusal::Range(at));
    }
    Ok(text)
}

#[tactic(auto, unfolding(crate::specs::Fields::opening_length))]
fn read_opening_length(r: &mut Reader<'_>) -> Result<u32, CodecRefusal>
    ensures { Gives opening_length.read r.old r.new result }
{
    let at = r.place();
    let length = read_u32(r)?;
    if length > LONGEST_OFFICE_TEXT {
        return Err(CodecRefusal::Range(at));
    }
    Ok(length)
}

#[tactic(auto, unfolding(crate::specs::Fields::opening_text))]
pub(crate) fn read_opening_text(r: &mut Reader<'_>, alloc: Global) -> Result<Bytes, CodecRefusal>
    ensures { Shows (λ b. b.items) opening_text.read r.old r.new result }
{
    let length = read_opening_length(r)? as usize;
    if r.left.len() < length {
        return Err(CodecRefusal::Short(r.whole));
    }
    let (front, rest) = r.left.split_at(length);
    r.left = rest;
    Ok(Bytes::of(alloc, front)?)
}
