ghost use Rattle.std.specs.Prelude.{◌≡◌, [], length};
ghost use Rattle.ht_codec.specs.Fields.{names_count, is_new, new_name, names, some_names};
ghost use Rattle.ht_codec.specs.Forms.{read_items};
ghost use Rattle.ht_codec.specs.Reading.{Gives};

use crate::CodecRefusal;
use crate::fields::read_name;
use crate::numbers::read_u16;
use crate::reader::Reader;
use ht_base::{MOST_NAMES, Name, Names};
use std::alloc::Global;

#[tactic(auto, unfolding(crate::specs::Fields::names_count))]
fn read_names_count(r: &mut Reader<'_>) -> Result<u16, CodecRefusal>
    ensures { Gives names_count.read r.old r.new result }
{
    let at = r.place();
    let count = read_u16(r)?;
    if usize::from(count) > MOST_NAMES {
        return Err(CodecRefusal::Range(at));
    }
    Ok(count)
}

fn is_new(front: &Names, name: &Name) -> bool
    ensures { result ≡ is_new front.now name.now }
{
    !front.as_slice().contains(name)
}

/// A name that isn't one of these.
#[tactic(auto, unfolding(crate::specs::Fields::new_name))]
fn read_new_name(r: &mut Reader<'_>, front: &Names) -> Result<Name, CodecRefusal>
    ensures { Gives (new_name front.now).read r.old r.new result }
{
    let at = r.place();
    let name = read_name(r)?;
    if !is_new(front, &name) {
        return Err(CodecRefusal::Range(at));
    }
    Ok(name)
}

/// So many names, no two alike. No room is kept for names that haven't come.
fn read_each_name(r: &mut Reader<'_>, alloc: Global, count: u16) -> Result<Names, CodecRefusal>
    ensures { Gives (read_items new_name count []) r.old r.new result }
{
    let mut names = Names::new(alloc);
    for _ in 0..count {
        let name = read_new_name(r, &names)?;
        names.push(name)?;
    }
    Ok(names)
}

#[tactic(auto, unfolding(crate::specs::Fields::names))]
pub(crate) fn read_names(r: &mut Reader<'_>, alloc: Global) -> Result<Names, CodecRefusal>
    ensures { Gives names.read r.old r.new result }
{
    let count = read_names_count(r)?;
    read_each_name(r, alloc, count)
}

#[tactic(auto, unfolding(crate::specs::Fields::some_names))]
pub(crate) fn read_some_names(r: &mut Reader<'_>, alloc: Global) -> Result<Names, CodecRefusal>
    ensures { Gives some_names.read r.old r.new result }
{
    let at = r.place();
    let names = read_names(r, alloc)?;
    if names.as_slice().is_empty() {
        return Err(CodecRefusal::Range(at));
    }
    Ok(names)
}
