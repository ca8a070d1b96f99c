//! Fields are written behind the bytes that are there.
ghost use Rattle.std.specs.Prelude.{◌≡◌, ◌≤◌, ◌^◌, ◌∷◌, [], ◌++◌, length, IfSome, IsTrue, OnOk, true};
ghost use Rattle.std.specs.Int.{w16, w32, w64};
ghost use Rattle.std.specs.Str.{is_utf8};
ghost use Rattle.ht_base.specs.declared.limits.TheConstants.{LONGEST_OFFICE_TEXT, LONGEST_TEXT, LOWEST_PRIORITY};
ghost use Rattle.ht_base.specs.Events.{AreGiven, AreNames, IsEnd, IsRetry, is_short};
ghost use Rattle.ht_base.specs.Moment.{last_moment};
ghost use Rattle.ht_codec.specs.Fields.{moment, name, retry_number, retry, text, some_text, names, some_names, scalar, parts, some_parts, role, priority, end, opening_text};
ghost use Rattle.ht_codec.specs.Forms.{number, option};

use crate::fields::NO_DEVICE;
use ht_base::{Bytes, End, Memory, Moment, Name, Names, Parts, Retry, RoleList, Scalar, Txt};

// ---- bytes and numbers

pub(crate) fn write_byte(out: &mut Bytes, value: u8) -> Result<(), Memory>
    ensures { OnOk result (out.new.items ≡ out.old.items ++ value ∷ []) }
{
    out.extend(&[value])
}

fn write_u16(out: &mut Bytes, value: u16) -> Result<(), Memory>
    ensures { OnOk result (out.new.items ≡ out.old.items ++ (number w16 (2 ^ 16)).text value) }
{
    out.extend(&value.to_le_bytes())
}

pub(crate) fn write_u32(out: &mut Bytes, value: u32) -> Result<(), Memory>
    ensures { OnOk result (out.new.items ≡ out.old.items ++ (number w32 (2 ^ 32)).text value) }
{
    out.extend(&value.to_le_bytes())
}

fn write_u64(out: &mut Bytes, value: u64) -> Result<(), Memory>
    ensures { OnOk result (out.new.items ≡ out.old.items ++ (number w64 (2 ^ 64)).text value) }
{
    out.extend(&value.to_le_bytes())
}

// ---- moments and names

#[tactic(auto, unfolding(crate::specs::Fields::moment), using(crate::proofs::Ranges::moment_fits))]
pub(crate) fn write_moment(out: &mut Bytes, at: Moment) -> Result<(), Memory>
    requires { at.0 ≤ last_moment }
    ensures fits { moment.Fits at }
    ensures bytes { OnOk result (out.new.items ≡ out.old.items ++ moment.text at) }
{
    write_u64(out, at.0)
}

#[tactic(auto, unfolding(crate::specs::Forms::flag))]
pub(crate) fn write_option_moment(out: &mut Bytes, at: &Option<Moment>) -> Result<(), Memory>
    requires { IfSome at.now (λ m. m.0 ≤ last_moment) }
    ensures fits { OnOk result ((option moment).Fits at.now) }
    ensures bytes { OnOk result (out.new.items ≡ out.old.items ++ (option moment).text at.now) }
{
    match at {
        None => write_byte(out, 0),
        Some(at) => {
            write_byte(out, 1)?;
            write_moment(out, *at)
        }
    }
}

#[tactic(auto, unfolding(crate::specs::Fields::name, crate::specs::Fields::name_length), using(crate::proofs::Ranges::name_fits))]
pub(crate) fn write_name(out: &mut Bytes, value: &Name) -> Result<(), Memory>
    ensures fits { OnOk result (name.Fits value.now) }
    ensures bytes { OnOk result (out.new.items ≡ out.old.items ++ name.text value.now) }
{
    let bytes = value.as_bytes();
    write_byte(out, bytes.len() as u8)?;
    out.extend(bytes)
}

#[tactic(auto, unfolding(crate::specs::Forms::flag))]
pub(crate) fn write_option_name(out: &mut Bytes, value: &Option<Name>) -> Result<(), Memory>
    ensures fits { OnOk result ((option name).Fits value.now) }
    ensures bytes { OnOk result (out.new.items ≡ out.old.items ++ (option name).text value.now) }
{
    match value {
        None => write_byte(out, 0),
        Some(value) => {
            write_byte(out, 1)?;
            write_name(out, value)
        }
    }
}

// ---- the device and the number of a command

#[tactic(auto, unfolding(crate::specs::Fields::retry_number), using(crate::proofs::Ranges::retry_number_fits))]
fn write_retry_number(out: &mut Bytes, value: u32) -> Result<(), Memory>
    requires { 1 ≤ value }
    ensures fits { retry_number.Fits value }
    ensures bytes { OnOk result (out.new.items ≡ out.old.items ++ retry_number.text value) }
{
    write_u32(out, value)
}

#[tactic(auto, unfolding(crate::specs::Fields::retry, crate::specs::Fields::device), using(crate::proofs::Ranges::no_retry_fits, crate::proofs::Ranges::some_retry_fits))]
pub(crate) fn write_retry(out: &mut Bytes, value: Option<Retry>) -> Result<(), Memory>
    requires { IfSome value IsRetry }
    ensures fits { OnOk result (retry.Fits value) }
    ensures bytes { OnOk result (out.new.items ≡ out.old.items ++ retry.text value) }
{
    match value {
        None => write_byte(out, NO_DEVICE),
        Some(slot) => {
            write_byte(out, slot.device)?;
            write_retry_number(out, slot.number)
        }
    }
}

// ---- texts

/// Its bytes, which are UTF-8.
fn bytes_of(value: &Txt) -> &[u8]
    ensures value { result.now ≡ value.now }
    ensures utf8 { IsTrue (is_utf8 value.now) }
{
    value.as_str().as_bytes()
}

#[tactic(auto, unfolding(crate::specs::Fields::text, crate::specs::Fields::text_length), using(crate::proofs::Ranges::text_fits))]
fn write_text(out: &mut Bytes, value: &Txt) -> Result<(), Memory>
    requires { length value.now ≤ LONGEST_TEXT }
    ensures fits { OnOk result (text.Fits value.now) }
    ensures bytes { OnOk result (out.new.items ≡ out.old.items ++ text.text value.now) }
{
    let bytes = bytes_of(value);
    write_u16(out, bytes.len() as u16)?;
    out.extend(bytes)
}

#[tactic(auto, unfolding(crate::specs::Fields::some_text), using(crate::proofs::Ranges::some_text_fits))]
pub(crate) fn write_some_text(out: &mut Bytes, value: &Txt) -> Result<(), Memory>
    requires { (1 ≤ length value.now) × (length value.now ≤ LONGEST_TEXT) }
    ensures fits { OnOk result (some_text.Fits value.now) }
    ensures bytes { OnOk result (out.new.items ≡ out.old.items ++ some_text.text value.now) }
{
    write_text(out, value)?;
    Ok(())
}

#[tactic(auto, unfolding(crate::specs::Fields::opening_text, crate::specs::Fields::opening_length), using(crate::proofs::Ranges::opening_text_fits))]
pub(crate) fn write_opening_text(out: &mut Bytes, value: &Bytes) -> Result<(), Memory>
    requires { length value.now.items ≤ LONGEST_OFFICE_TEXT }
    ensures fits { opening_text.Fits value.now.items }
    ensures bytes { OnOk result
        (out.new.items ≡ out.old.items ++ opening_text.text value.now.items) }
{
    let bytes = value.as_slice();
    write_u32(out, bytes.len() as u32)?;
    out.extend(bytes)
}

// ---- lists of names

#[tactic(auto, unfolding(crate::specs::Fields::names, crate::specs::Fields::names_count, crate::specs::Fields::new_name), using(crate::proofs::Ranges::names_fits))]
pub(crate) fn write_names(out: &mut Bytes, value: &Names) -> Result<(), Memory>
    requires { AreNames value.now }
    ensures fits { OnOk result (names.Fits value.now) }
    ensures bytes { OnOk result (out.new.items ≡ out.old.items ++ names.text value.now) }
{
    let names = value.as_slice();
    write_u16(out, names.len() as u16)?;
    for name in names {
        write_name(out, name)?;
    }
    Ok(())
}

#[tactic(auto, unfolding(crate::specs::Fields::some_names), using(crate::proofs::Ranges::some_names_fits))]
pub(crate) fn write_some_names(out: &mut Bytes, value: &Names) -> Result<(), Memory>
    requires { AreNames value.now × 1 ≤ length value.now }
    ensures fits { OnOk result (some_names.Fits value.now) }
    ensures bytes { OnOk result (out.new.items ≡ out.old.items ++ some_names.text value.now) }
{
    write_names(out, value)?;
    Ok(())
}

// ---- parts

#[tactic(auto, unfolding(crate::specs::Fields::scalar, crate::specs::Fields::scalar_kind, crate::specs::Fields::int, crate::specs::Fields::truth), using(crate::proofs::Ranges::scalar_text_fits, crate::proofs::Ranges::scalar_int_fits, crate::proofs::Ranges::scalar_truth_fits))]
fn write_scalar(out: &mut Bytes, value: &Scalar) -> Result<(), Memory>
    requires { is_short LONGEST_TEXT ([], value.now) ≡ true }
    ensures fits { OnOk result (scalar.Fits value.now) }
    ensures bytes { OnOk result (out.new.items ≡ out.old.items ++ scalar.text value.now) }
{
    match value {
        Scalar::Text(text) => {
            write_byte(out, 0)?;
            write_text(out, text)?;
            Ok(())
        }
        Scalar::Int(number) => {
            write_byte(out, 1)?;
            out.extend(&number.to_le_bytes())
        }
        Scalar::Truth(truth) => {
            write_byte(out, 2)?;
            write_byte(out, u8::from(*truth))
        }
    }
}

#[tactic(auto, unfolding(crate::specs::Fields::parts, crate::specs::Fields::parts_count, crate::specs::Fields::name_behind), using(crate::proofs::Ranges::parts_fits))]
pub(crate) fn write_parts(out: &mut Bytes, value: &Parts) -> Result<(), Memory>
    requires { AreGiven value.now }
    ensures fits { OnOk result (parts.Fits value.now) }
    ensures bytes { OnOk result (out.new.items ≡ out.old.items ++ parts.text value.now) }
{
    let parts = value.as_slice();
    write_byte(out, parts.len() as u8)?;
    for (name, scalar) in parts {
        write_name(out, name)?;
        write_scalar(out, scalar)?;
    }
    Ok(())
}

#[tactic(auto, unfolding(crate::specs::Fields::some_parts), using(crate::proofs::Ranges::some_parts_fits))]
pub(crate) fn write_some_parts(out: &mut Bytes, value: &Parts) -> Result<(), Memory>
    requires { AreGiven value.now × 1 ≤ length value.now }
    ensures fits { OnOk result (some_parts.Fits value.now) }
    ensures bytes { OnOk result (out.new.items ≡ out.old.items ++ some_parts.text value.now) }
{
    write_parts(out, value)?;
    Ok(())
}

// ---- the list of a role, a priority, and the end of a suspension

#[tactic(auto, unfolding(crate::specs::Fields::role))]
pub(crate) fn write_role(out: &mut Bytes, value: RoleList) -> Result<(), Memory>
    ensures fits { role.Fits value }
    ensures bytes { OnOk result (out.new.items ≡ out.old.items ++ role.text value) }
{
    let byte = match value {
        RoleList::PotentialOwners => 0,
        RoleList::ExcludedOwners => 1,
        RoleList::Administrators => 2,
        RoleList::Stakeholders => 3,
    };
    write_byte(out, byte)
}

#[tactic(auto, unfolding(crate::specs::Fields::priority), using(crate::proofs::Ranges::priority_fits))]
pub(crate) fn write_priority(out: &mut Bytes, value: u8) -> Result<(), Memory>
    requires { value ≤ LOWEST_PRIORITY }
    ensures fits { priority.Fits value }
    ensures bytes { OnOk result (out.new.items ≡ out.old.items ++ priority.text value) }
{
    write_byte(out, value)
}

#[tactic(auto, unfolding(crate::specs::Fields::end, crate::specs::Fields::end_kind, crate::specs::Fields::period), using(crate::proofs::Ranges::end_fits))]
pub(crate) fn write_end(out: &mut Bytes, value: End) -> Result<(), Memory>
    requires { IsEnd value }
    ensures fits { OnOk result (end.Fits value) }
    ensures bytes { OnOk result (out.new.items ≡ out.old.items ++ end.text value) }
{
    match value {
        End::At(at) => {
            write_byte(out, 0)?;
            write_moment(out, at)
        }
        End::After(period) => {
            write_byte(out, 1)?;
            write_u64(out, period)
        }
    }
}
