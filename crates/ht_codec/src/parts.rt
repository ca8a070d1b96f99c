ghost use Rattle.std.specs.Prelude.{◌≡◌, [], IfOk, IsTrue, length};
ghost use Rattle.ht_codec.specs.Fields.{int, truth, scalar_kind, next_scalar, scalar, is_behind, last_name, name_behind, new_part, parts_count, parts, some_parts};
ghost use Rattle.ht_codec.specs.Forms.{read_items};
ghost use Rattle.ht_codec.specs.Reading.{Gives};

use crate::CodecRefusal;
use crate::fields::read_name;
use crate::kinds::ScalarKind;
use crate::numbers::read_byte;
use crate::reader::Reader;
use crate::texts::read_text;
use ht_base::{MOST_PARTS, Name, Parts, Scalar};
use std::alloc::Global;

#[tactic(auto, unfolding(crate::specs::Fields::int))]
fn read_int(r: &mut Reader<'_>) -> Result<i64, CodecRefusal>
    ensures { Gives int.read r.old r.new result }
{
    if r.left.len() < 8 {
        return Err(CodecRefusal::Short(r.whole));
    }
    let (front, rest) = r.left.split_at(8);
    r.left = rest;
    Ok(i64::from_le_bytes([
        front[0], front[1], front[2], front[3], front[4], front[5], front[6], front[7],
    ]))
}

#[tactic(auto, unfolding(crate::specs::Fields::truth))]
fn read_truth(r: &mut Reader<'_>) -> Result<bool, CodecRefusal>
    ensures { Gives truth.read r.old r.new result }
{
    let at = r.place();
    match read_byte(r)? {
        0 => Ok(false),
        1 => Ok(true),
        _ => Err(CodecRefusal::Range(at)),
    }
}

#[tactic(auto, unfolding(crate::specs::Fields::scalar_kind))]
fn read_scalar_kind(r: &mut Reader<'_>) -> Result<ScalarKind, CodecRefusal>
    ensures { Gives scalar_kind.read r.old r.new result }
{
    let at = r.place();
    match read_byte(r)? {
        0 => Ok(ScalarKind::Text),
        1 => Ok(ScalarKind::Int),
        2 => Ok(ScalarKind::Truth),
        _ => Err(CodecRefusal::Tag(at)),
    }
}

fn read_scalar_of(
    r: &mut Reader<'_>,
    alloc: Global,
    kind: ScalarKind,
) -> Result<Scalar, CodecRefusal>
    ensures { Gives (next_scalar kind).read r.old r.new result }
{
    match kind {
        ScalarKind::Text => Ok(Scalar::Text(read_text(r, alloc)?)),
        ScalarKind::Int => Ok(Scalar::Int(read_int(r)?)),
        ScalarKind::Truth => Ok(Scalar::Truth(read_truth(r)?)),
    }
}

#[tactic(auto, unfolding(crate::specs::Fields::scalar))]
fn read_scalar(r: &mut Reader<'_>, alloc: Global) -> Result<Scalar, CodecRefusal>
    ensures { Gives scalar.read r.old r.new result }
{
    let kind = read_scalar_kind(r)?;
    read_scalar_of(r, alloc, kind)
}

fn is_behind(front: &Parts, name: &Name) -> bool
    ensures { result ≡ is_behind (last_name front.now) name.now }
{
    match front.as_slice() {
        [] => true,
        [.., (last, _)] => last < name,
    }
}

/// A name behind the last one.
#[tactic(auto, unfolding(crate::specs::Fields::name_behind))]
fn read_name_behind(r: &mut Reader<'_>, front: &Parts) -> Result<Name, CodecRefusal>
    ensures gives { Gives (name_behind (last_name front.now)).read r.old r.new result }
    ensures behind { IfOk result (λ n. IsTrue (is_behind (last_name front.now) n)) }
{
    let at = r.place();
    let name = read_name(r)?;
    if !is_behind(front, &name) {
        return Err(CodecRefusal::Range(at));
    }
    Ok(name)
}

fn read_part(
    r: &mut Reader<'_>,
    alloc: Global,
    front: &Parts,
) -> Result<(Name, Scalar), CodecRefusal>
    ensures gives { Gives (new_part front.now).read r.old r.new result }
    ensures behind { IfOk result (λ x. IsTrue (is_behind (last_name front.now) x.0)) }
{
    let name = read_name_behind(r, front)?;
    let scalar = read_scalar(r, alloc)?;
    Ok((name, scalar))
}

/// So many parts, with ascending names. No room is kept for parts that haven't come.
fn read_each_part(r: &mut Reader<'_>, alloc: Global, count: u8) -> Result<Parts, CodecRefusal>
    ensures { Gives (read_items new_part count []) r.old r.new result }
{
    let mut parts = Parts::new(alloc);
    for _ in 0..count {
        let (name, scalar) = read_part(r, alloc, &parts)?;
        parts.push(name, scalar)?;
    }
    Ok(parts)
}

#[tactic(auto, unfolding(crate::specs::Fields::parts_count))]
fn read_parts_count(r: &mut Reader<'_>) -> Result<u8, CodecRefusal>
    ensures { Gives parts_count.read r.old r.new result }
{
    let at = r.place();
    let count = read_byte(r)?;
    if usize::from(count) > MOST_PARTS {
        return Err(CodecRefusal::Range(at));
    }
    Ok(count)
}

#[tactic(auto, unfolding(crate::specs::Fields::parts))]
pub(crate) fn read_parts(r: &mut Reader<'_>, alloc: Global) -> Result<Parts, CodecRefusal>
    ensures { Gives parts.read r.old r.new result }
{
    let count = read_parts_count(r)?;
    read_each_part(r, alloc, count)
}

#[tactic(auto, unfolding(crate::specs::Fields::some_parts))]
pub(crate) fn read_some_parts(r: &mut Reader<'_>, alloc: Global) -> Result<Parts, CodecRefusal>
    ensures { Gives some_parts.read r.old r.new result }
{
    let at = r.place();
    let parts = read_parts(r, alloc)?;
    if parts.as_slice().is_empty() {
        return Err(CodecRefusal::Range(at));
    }
    Ok(parts)
}
