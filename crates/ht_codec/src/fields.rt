ghost use Rattle.std.specs.Prelude.{◌≡◌, length};
ghost use Rattle.ht_codec.specs.Fields.{moment, period, name_length, name, device, retry_number, next_retry, retry, role, priority, end_kind, next_end, end};
ghost use Rattle.ht_codec.specs.Forms.{flag, option};
ghost use Rattle.ht_codec.specs.Reading.{Gives};

use crate::CodecRefusal;
use crate::kinds::EndKind;
use crate::numbers::{read_byte, read_u32, read_u64};
use crate::reader::Reader;
use ht_base::{
    End, LAST, LAST_DEVICE, LONGEST_NAME, LONGEST_PERIOD, LOWEST_PRIORITY, Moment, Name, Retry,
    RoleList,
};

/// The byte of a device that there isn't.
pub(crate) const NO_DEVICE: u8 = LAST_DEVICE + 1;

#[tactic(auto, unfolding(crate::specs::Fields::moment))]
pub(crate) fn read_moment(r: &mut Reader<'_>) -> Result<Moment, CodecRefusal>
    ensures { Gives moment.read r.old r.new result }
{
    let at = r.place();
    let moment = read_u64(r)?;
    if moment > LAST {
        return Err(CodecRefusal::Range(at));
    }
    Ok(Moment(moment))
}

#[tactic(auto, unfolding(crate::specs::Fields::period))]
fn read_period(r: &mut Reader<'_>) -> Result<u64, CodecRefusal>
    ensures { Gives period.read r.old r.new result }
{
    let at = r.place();
    let period = read_u64(r)?;
    if period > LONGEST_PERIOD {
        return Err(CodecRefusal::Range(at));
    }
    Ok(period)
}

#[tactic(auto, unfolding(crate::specs::Fields::name_length))]
fn read_name_length(r: &mut Reader<'_>) -> Result<u8, CodecRefusal>
    ensures { Gives name_length.read r.old r.new result }
{
    let at = r.place();
    let length = read_byte(r)?;
    if length < 1 || usize::from(length) > LONGEST_NAME {
        return Err(CodecRefusal::Range(at));
    }
    Ok(length)
}

#[tactic(auto, unfolding(crate::specs::Fields::name))]
pub(crate) fn read_name(r: &mut Reader<'_>) -> Result<Name, CodecRefusal>
    ensures { Gives name.read r.old r.new result }
{
    let at = r.place();
    let length = usize::from(read_name_length(r)?);
    if r.left.len() < length {
        return Err(CodecRefusal::Short(r.whole));
    }
    let (front, rest) = r.left.split_at(length);
    match Name::of(front) {
        Some(name) => {
            r.left = rest;
            Ok(name)
        }
        None => Err(CodecRefusal::Range(at)),
    }
}

#[tactic(auto, unfolding(crate::specs::Forms::flag))]
pub(crate) fn read_flag(r: &mut Reader<'_>) -> Result<bool, CodecRefusal>
    ensures { Gives flag.read r.old r.new result }
{
    let at = r.place();
    match read_byte(r)? {
        0 => Ok(false),
        1 => Ok(true),
        _ => Err(CodecRefusal::Tag(at)),
    }
}

pub(crate) fn read_option_name(r: &mut Reader<'_>) -> Result<Option<Name>, CodecRefusal>
    ensures { Gives (option name).read r.old r.new result }
{
    if read_flag(r)? {
        Ok(Some(read_name(r)?))
    } else {
        Ok(None)
    }
}

pub(crate) fn read_option_moment(r: &mut Reader<'_>) -> Result<Option<Moment>, CodecRefusal>
    ensures { Gives (option moment).read r.old r.new result }
{
    if read_flag(r)? {
        Ok(Some(read_moment(r)?))
    } else {
        Ok(None)
    }
}

#[tactic(auto, unfolding(crate::specs::Fields::device))]
fn read_device(r: &mut Reader<'_>) -> Result<Option<u8>, CodecRefusal>
    ensures { Gives device.read r.old r.new result }
{
    let at = r.place();
    let device = read_byte(r)?;
    if device < NO_DEVICE {
        Ok(Some(device))
    } else if device == NO_DEVICE {
        Ok(None)
    } else {
        Err(CodecRefusal::Range(at))
    }
}

#[tactic(auto, unfolding(crate::specs::Fields::retry_number))]
fn read_retry_number(r: &mut Reader<'_>) -> Result<u32, CodecRefusal>
    ensures { Gives retry_number.read r.old r.new result }
{
    let at = r.place();
    let number = read_u32(r)?;
    if number < 1 {
        return Err(CodecRefusal::Range(at));
    }
    Ok(number)
}

fn read_retry_of(r: &mut Reader<'_>, device: Option<u8>) -> Result<Option<Retry>, CodecRefusal>
    ensures { Gives (next_retry device).read r.old r.new result }
{
    match device {
        None => Ok(None),
        Some(device) => {
            let number = read_retry_number(r)?;
            Ok(Some(Retry { device, number }))
        }
    }
}

#[tactic(auto, unfolding(crate::specs::Fields::retry))]
pub(crate) fn read_retry(r: &mut Reader<'_>) -> Result<Option<Retry>, CodecRefusal>
    ensures { Gives retry.read r.old r.new result }
{
    let device = read_device(r)?;
    read_retry_of(r, device)
}

#[tactic(auto, unfolding(crate::specs::Fields::role))]
pub(crate) fn read_role(r: &mut Reader<'_>) -> Result<RoleList, CodecRefusal>
    ensures { Gives role.read r.old r.new result }
{
    let at = r.place();
    match read_byte(r)? {
        0 => Ok(RoleList::PotentialOwners),
        1 => Ok(RoleList::ExcludedOwners),
        2 => Ok(RoleList::Administrators),
        3 => Ok(RoleList::Stakeholders),
        _ => Err(CodecRefusal::Range(at)),
    }
}

#[tactic(auto, unfolding(crate::specs::Fields::priority))]
pub(crate) fn read_priority(r: &mut Reader<'_>) -> Result<u8, CodecRefusal>
    ensures { Gives priority.read r.old r.new result }
{
    let at = r.place();
    let priority = read_byte(r)?;
    if priority > LOWEST_PRIORITY {
        return Err(CodecRefusal::Range(at));
    }
    Ok(priority)
}

#[tactic(auto, unfolding(crate::specs::Fields::end_kind))]
fn read_end_kind(r: &mut Reader<'_>) -> Result<EndKind, CodecRefusal>
    ensures { Gives end_kind.read r.old r.new result }
{
    let at = r.place();
    match read_byte(r)? {
        0 => Ok(EndKind::At),
        1 => Ok(EndKind::After),
        _ => Err(CodecRefusal::Tag(at)),
    }
}

fn read_end_of(r: &mut Reader<'_>, kind: EndKind) -> Result<End, CodecRefusal>
    ensures { Gives (next_end kind).read r.old r.new result }
{
    match kind {
        EndKind::At => Ok(End::At(read_moment(r)?)),
        EndKind::After => Ok(End::After(read_period(r)?)),
    }
}

#[tactic(auto, unfolding(crate::specs::Fields::end))]
pub(crate) fn read_end(r: &mut Reader<'_>) -> Result<End, CodecRefusal>
    ensures { Gives end.read r.old r.new result }
{
    let kind = read_end_kind(r)?;
    read_end_of(r, kind)
}
